// color_config (AV1 5.5.2).
ghost use Rattle.std.specs.Prelude.{◌≡◌};
ghost use Rattle.sequence.specs.Header.{color_description, is_srgb, coded_subsampling};
ghost use Rattle.sequence.specs.Header.{other_color, chroma_format, color_config};
ghost use Rattle.sequence.specs.Header.{subsampling as header_subsampling};
ghost use Rattle.sequence.specs.Header.{positioned as header_positioned, grey as header_grey};
ghost use Rattle.sequence.specs.Parts.{Reads};

use crate::fields::Sequence;
use crate::points::Point;
use crate::reader::BitReader;

// twelve_bit where BitDepth is 12.
const TWELVE: u8 = 1;

// transfer_characteristics of sRGB.
const SRGB_TRANSFER: u8 = 13;

// subsampling_x, subsampling_y and chroma_sample_position.
#[derive(Clone, Copy)]
struct Color {
    pub x: u8,
    pub y: u8,
    pub position: u8,
}

// color_primaries, transfer_characteristics and matrix_coefficients.
#[derive(Clone, Copy)]
struct Description {
    pub primaries: u8,
    pub transfer: u8,
    pub matrix: u8,
}

// Reads the color description. Returns "unspecified", which is 2 three times, if it is not present.
#[tactic(auto, using(crate::proofs::Steps::reads), unfolding(crate::specs::Header::color_description))]
fn color_description(reader: &mut BitReader) -> Description
    ensures { Reads reader.old color_description result reader.new }
{
    if reader.flag() {
        Description {
            primaries: reader.number(8),
            transfer: reader.number(8),
            matrix: reader.number(8),
        }
    } else {
        Description {
            primaries: 2,
            transfer: 2,
            matrix: 2,
        }
    }
}

// Returns whether the color is sRGB, which is coded without its chroma format.
#[tactic(auto, using(crate::proofs::Steps::reads), unfolding(crate::specs::Header::is_srgb))]
fn is_srgb(d: Description) -> bool
    ensures { result ≡ is_srgb d }
{
    d.primaries == 1 && d.transfer == SRGB_TRANSFER && d.matrix == 0
}

// Reads subsampling_x and, if it is 1, subsampling_y.
#[tactic(auto, using(crate::proofs::Steps::reads), unfolding(crate::specs::Header::coded_subsampling))]
fn coded_subsampling(reader: &mut BitReader) -> Color
    ensures { Reads reader.old coded_subsampling result reader.new }
{
    let x = reader.number(1);
    let y = reader.number_if(x == 1, 1);
    Color { x, y, position: 0 }
}

// Reads or infers the subsampling, by profile and bit depth.
// Stays: `profile` and `twelve` are two values that were read before, as the definition takes them.
#[tactic(auto, using(crate::proofs::Steps::reads), unfolding(crate::specs::Header::subsampling))]
fn subsampling(profile: u8, twelve: u8, reader: &mut BitReader) -> Color
    ensures { Reads reader.old (header_subsampling profile twelve) result reader.new }
{
    if profile == 0 {
        return Color {
            x: 1,
            y: 1,
            position: 0,
        };
    }
    if profile == 1 {
        return Color {
            x: 0,
            y: 0,
            position: 0,
        };
    }
    if twelve == TWELVE {
        return coded_subsampling(reader);
    }
    Color {
        x: 1,
        y: 0,
        position: 0,
    }
}

// Reads chroma_sample_position, which is coded if both directions are subsampled.
#[tactic(auto, using(crate::proofs::Steps::reads), unfolding(crate::specs::Header::positioned))]
fn positioned(c: Color, reader: &mut BitReader) -> Color
    ensures { Reads reader.old (header_positioned c) result reader.new }
{
    let position = reader.number_if(c.x == 1 && c.y == 1, 2);
    Color {
        x: c.x,
        y: c.y,
        position,
    }
}

// Reads the chroma format of a monochrome video.
#[tactic(auto, using(crate::proofs::Steps::reads), unfolding(crate::specs::Header::grey))]
fn grey(reader: &mut BitReader) -> Color
    ensures { Reads reader.old header_grey result reader.new }
{
    reader.skip(1); // color_range of a monochrome video
    Color {
        x: 1,
        y: 1,
        position: 0,
    }
}

// Reads the chroma format of a video with other colors.
#[tactic(auto, using(crate::proofs::Steps::reads), unfolding(crate::specs::Header::other_color))]
fn other_color(profile: u8, twelve: u8, reader: &mut BitReader) -> Color
    ensures { Reads reader.old (other_color profile twelve) result reader.new }
{
    reader.skip(1); // color_range
    let color = subsampling(profile, twelve, reader);
    positioned(color, reader)
}

// Reads the chroma format.
#[tactic(auto, using(crate::proofs::Steps::reads), unfolding(crate::specs::Header::chroma_format))]
fn chroma_format(
    profile: u8,
    twelve: u8,
    monochrome: u8,
    d: Description,
    reader: &mut BitReader,
) -> Color
    ensures { Reads reader.old (chroma_format profile twelve monochrome d) result reader.new }
{
    if monochrome == 1 {
        return grey(reader);
    }
    if is_srgb(d) {
        return Color {
            x: 0,
            y: 0,
            position: 0,
        };
    }
    other_color(profile, twelve, reader)
}

// Reads color_config. Returns the nine fields, with those that were read before.
#[tactic(auto, using(crate::proofs::Steps::reads), unfolding(crate::specs::Header::color_config))]
pub(crate) fn color_config(profile: u8, point: Point, reader: &mut BitReader) -> Sequence
    ensures { Reads reader.old (color_config profile point) result reader.new }
{
    let high = reader.number(1);
    let twelve = reader.number_if(profile == 2 && high == 1, 1);
    let monochrome = reader.number_if(profile != 1, 1);
    let description = color_description(reader);
    let color = chroma_format(profile, twelve, monochrome, description, reader);
    Sequence {
        seq_profile: profile,
        seq_level_idx_0: point.level,
        seq_tier_0: point.tier,
        high_bitdepth: high,
        twelve_bit: twelve,
        monochrome,
        chroma_subsampling_x: color.x,
        chroma_subsampling_y: color.y,
        chroma_sample_position: color.position,
    }
}

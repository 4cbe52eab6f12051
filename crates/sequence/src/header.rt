// The sequence header (AV1 5.5.1).
ghost use Rattle.std.specs.Prelude.{◌≡◌, drop};
ghost use Rattle.emulation.specs.Payload.{unescape};
ghost use Rattle.refusal.specs.Number.{says};
ghost use Rattle.sequence.specs.Header.{sequence_header};
ghost use Rattle.sequence.specs.Comparison.{reading};
ghost use Rattle.sequence.specs.Parts.{Reads};

use crate::color::color_config;
use crate::fields::Sequence;
use crate::points::point_of;
use crate::reader::BitReader;
use crate::tools::frames_and_tools;
use refusal::{Refusal, Refused};

// Reads the header up to chroma_sample_position.
#[tactic(auto, using(crate::proofs::Steps::reads), unfolding(crate::specs::Header::sequence_header))]
fn sequence_header(reader: &mut BitReader) -> Sequence
    ensures { Reads reader.old sequence_header result reader.new }
{
    let profile = reader.number(3);
    reader.skip(1); // still_picture
    let reduced = reader.flag();
    let point = point_of(reduced, reader);
    frames_and_tools(reduced, reader);
    color_config(profile, point, reader)
}

// Returns the nine fields of the sequence header that is carried in `payload`, behind the first `at` bytes of its OBU,
// or refusal 43 if the header is cut short.
#[tactic(auto, using(crate::proofs::Headers::headers))]
pub fn read(payload: &[u8], at: usize) -> Result<Sequence, Refused>
    ensures { says result ≡ reading (drop at (unescape payload.now)) }
{
    let mut reader = BitReader::new(payload, at);
    let sequence = sequence_header(&mut reader);
    if reader.is_cut() {
        return Err(Refusal::CutShort.at(0));
    }
    Ok(sequence)
}

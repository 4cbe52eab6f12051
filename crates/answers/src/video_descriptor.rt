// Reading and writing the AV1 video descriptor.
ghost use Rattle.std.specs.Prelude.{◌≡◌};
ghost use Rattle.refusal.specs.Number.{says};
ghost use Rattle.answers.specs.Answers.{field_list, descriptor_answer, fields_from};

use descriptor::{Fields, Video};
use refusal::Refused;

// The ten fields, in descriptor order; delay_present 1: the delay is present.
#[repr(C)]
#[derive(Drop)]
pub struct VideoDescriptor {
    pub number: u64,
    pub place: u64,
    // Stays: the C interface has this array (av1ts_descriptor in include/av1ts.h).
    pub field: [u64; 10],
    pub delay_present: u64,
    pub delay: u64,
}

// The ten fields, in descriptor order.
fn field_list(fields: Fields) -> [u64; 10]
    ensures { result ≡ field_list fields }
{
    [
        fields.seq_profile as u64,
        fields.seq_level_idx_0 as u64,
        fields.seq_tier_0 as u64,
        fields.high_bitdepth as u64,
        fields.twelve_bit as u64,
        fields.monochrome as u64,
        fields.chroma_subsampling_x as u64,
        fields.chroma_subsampling_y as u64,
        fields.chroma_sample_position as u64,
        fields.hdr_wcg_idc as u64,
    ]
}

// The fields and the delay, or the refusal.
impl From<Result<Video, Refused>> for VideoDescriptor {
    ghost from_gives = { λ read answer. answer ≡ descriptor_answer (says read) };

    fn from(read: Result<Video, Refused>) -> VideoDescriptor {
        match read {
            Ok(video) => VideoDescriptor {
                number: 0,
                place: 0,
                field: field_list(video.fields),
                delay_present: video.delay.is_some() as u64,
                delay: video.delay.unwrap_or(0) as u64,
            },
            Err(refused) => VideoDescriptor {
                number: refused.why.number() as u64,
                place: refused.place as u64,
                field: [0; 10],
                delay_present: 0,
                delay: 0,
            },
        }
    }
}

// The fields, from an array of them.
// Stays: docs/PROMISES.md names it; `From` could stand beside `Fields` alone, and this order is the C interface's.
pub fn fields_from(field: &[u8; 10]) -> Fields
    ensures { result ≡ fields_from field.now }
{
    Fields {
        seq_profile: field[0],
        seq_level_idx_0: field[1],
        seq_tier_0: field[2],
        high_bitdepth: field[3],
        twelve_bit: field[4],
        monochrome: field[5],
        chroma_subsampling_x: field[6],
        chroma_subsampling_y: field[7],
        chroma_sample_position: field[8],
        hdr_wcg_idc: field[9],
    }
}

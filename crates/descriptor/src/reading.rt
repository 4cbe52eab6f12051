// Reading the video descriptor.
ghost use Rattle.refusal.specs.Number.{says};
ghost use Rattle.std.specs.Prelude.{◌≡◌};
ghost use Rattle.descriptor.specs.Descriptor.{fields_of, delay_of, version_wrong, zeros_wrong, reading};
ghost use Rattle.descriptor.specs.Descriptor.{wrong as descriptor_wrong};

use crate::fields::{Fields, Video};
use lists::byte_at;
use refusal::{Refusal, Refused};

// Returns the ten fields, whether or not the descriptor is refused.
#[tactic(auto, unfolding(crate::specs::Descriptor::fields_of))]
pub fn fields_of(bytes: &[u8]) -> Fields
    ensures { result ≡ fields_of bytes.now }
{
    let b3 = byte_at(bytes, 3);
    let b4 = byte_at(bytes, 4);
    let b5 = byte_at(bytes, 5);
    Fields {
        seq_profile: b3 / 32 % 8,
        seq_level_idx_0: b3 % 32,
        seq_tier_0: b4 / 128 % 2,
        high_bitdepth: b4 / 64 % 2,
        twelve_bit: b4 / 32 % 2,
        monochrome: b4 / 16 % 2,
        chroma_subsampling_x: b4 / 8 % 2,
        chroma_subsampling_y: b4 / 4 % 2,
        chroma_sample_position: b4 % 4,
        hdr_wcg_idc: b5 / 64 % 4,
    }
}

// Returns the delay if the last byte has one.
#[tactic(auto, unfolding(crate::specs::Descriptor::delay_of, lists::specs::Lists::pick))]
fn delay_of(last: u8) -> Option<u8>
    ensures { result ≡ delay_of last }
{
    (last / 16 % 2 == 1).then_some(last % 16)
}

// Returns true if the first of the four bytes has another marker or version.
#[tactic(auto, unfolding(crate::specs::Descriptor::version_wrong))]
fn version_wrong(first: u8) -> bool
    ensures { result ≡ version_wrong first }
{
    first / 128 % 2 != 1 || first % 128 != 1
}

// Returns true if the last byte has a bit set that must be 0.
#[tactic(auto, unfolding(crate::specs::Descriptor::zeros_wrong))]
fn zeros_wrong(last: u8) -> bool
    ensures { result ≡ zeros_wrong last }
{
    last / 32 % 2 == 1 || (last / 16 % 2 != 1 && last % 16 != 0)
}

// Returns true if the descriptor is refused by 40.
#[tactic(auto, unfolding(crate::specs::Descriptor::wrong))]
pub fn wrong(bytes: &[u8]) -> bool
    ensures { result ≡ descriptor_wrong bytes.now }
{
    bytes.len() != 6
        || bytes[0] != 0x80
        || bytes[1] != 4
        || version_wrong(bytes[2])
        || zeros_wrong(bytes[5])
}

// Returns what the descriptor says, or refusal 40.
pub fn read(bytes: &[u8]) -> Result<Video, Refused>
    ensures { says result ≡ reading bytes.now }
{
    if wrong(bytes) {
        return Err(Refusal::Descriptor.at(0));
    }
    Ok(Video {
        fields: fields_of(bytes),
        delay: delay_of(byte_at(bytes, 5)),
    })
}

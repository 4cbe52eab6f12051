// Writing the video descriptor.
ghost use Rattle.refusal.specs.Number.{says};
ghost use Rattle.std.specs.Prelude.{◌≡◌, false, length};
ghost use Rattle.refusal.specs.Verdict.{leaves};
ghost use Rattle.descriptor.specs.Descriptor.{profile_level_past, tier_to_chroma_past, hdr_past, past_width};
ghost use Rattle.descriptor.specs.Descriptor.{profile_level, tier_to_chroma, hdr_no_delay, descriptor_of};
ghost use Rattle.descriptor.specs.Descriptor.{writing};

use crate::fields::Fields;
use refusal::{Refusal, Refused};

// The reserved bit, initial_presentation_delay_present, and the low four bits.
const NO_DELAY: u8 = 0;

// Returns true if profile or level takes more bits than it has.
#[tactic(auto, unfolding(crate::specs::Descriptor::profile_level_past))]
fn profile_level_past(fields: Fields) -> bool
    ensures { result ≡ profile_level_past fields }
{
    8 <= fields.seq_profile || 32 <= fields.seq_level_idx_0
}

// Returns true if a field from tier to chroma_sample_position takes more bits than it has.
#[tactic(auto, unfolding(crate::specs::Descriptor::tier_to_chroma_past))]
fn tier_to_chroma_past(fields: Fields) -> bool
    ensures { result ≡ tier_to_chroma_past fields }
{
    2 <= fields.seq_tier_0
        || 2 <= fields.high_bitdepth
        || 2 <= fields.twelve_bit
        || 2 <= fields.monochrome
        || 2 <= fields.chroma_subsampling_x
        || 2 <= fields.chroma_subsampling_y
        || 4 <= fields.chroma_sample_position
}

// Returns true if one of the ten fields takes more bits than it has.
#[tactic(auto, unfolding(crate::specs::Descriptor::past_width))]
fn past_width(fields: Fields) -> bool
    ensures { result ≡ past_width fields }
{
    profile_level_past(fields) || tier_to_chroma_past(fields) || 4 <= fields.hdr_wcg_idc
}

// Returns the byte of profile and level.
#[tactic(auto, unfolding(crate::specs::Descriptor::profile_level_past))]
fn profile_level(fields: Fields) -> u8
    requires { profile_level_past fields ≡ false }
    ensures { result ≡ profile_level fields }
{
    fields.seq_profile * 32 + fields.seq_level_idx_0
}

// Returns the byte from tier to chroma_sample_position.
#[tactic(auto, unfolding(crate::specs::Descriptor::tier_to_chroma_past))]
fn tier_to_chroma(fields: Fields) -> u8
    requires { tier_to_chroma_past fields ≡ false }
    ensures { result ≡ tier_to_chroma fields }
{
    fields.seq_tier_0 * 128
        + fields.high_bitdepth * 64
        + fields.twelve_bit * 32
        + fields.monochrome * 16
        + fields.chroma_subsampling_x * 8
        + fields.chroma_subsampling_y * 4
        + fields.chroma_sample_position
}

// Returns the byte of hdr_wcg_idc, with no delay.
fn hdr_no_delay(fields: Fields) -> u8
    requires { hdr_past fields ≡ false }
    ensures { result ≡ hdr_no_delay fields }
{
    fields.hdr_wcg_idc * 64 + NO_DELAY
}

// Returns the descriptor of these fields.
#[tactic(auto, unfolding(crate::specs::Descriptor::past_width, crate::specs::Descriptor::descriptor_of))]
fn descriptor_of(fields: Fields) -> [u8; 6]
    requires { past_width fields ≡ false }
    ensures { result ≡ descriptor_of fields }
{
    [
        0x80,
        4,
        0x81,
        profile_level(fields),
        tier_to_chroma(fields),
        hdr_no_delay(fields),
    ]
}

// Writes the descriptor of these fields over the front of `out`, and returns its size. Returns refusal 41 if a field
// takes more bits than it has, then 8 if `out` is too short; `out` is then left unchanged.
pub fn write(fields: Fields, out: &mut [u8]) -> Result<usize, Refused>
    ensures result_value { says result ≡ writing fields (length out.old) }
    ensures out_after { out.new ≡ leaves (says result) (descriptor_of fields) out.old }
{
    if past_width(fields) {
        return Err(Refusal::DescriptorField.at(0));
    }
    if out.len() < 6 {
        return Err(Refusal::NoRoom.at(0));
    }
    out[..6].copy_from_slice(&descriptor_of(fields));
    Ok(6)
}

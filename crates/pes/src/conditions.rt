// What makes a PES header wrong (29).
ghost use Rattle.std.specs.Prelude.{◌≡◌, ◌≤◌};
ghost use Rattle.pes.specs.Pes.{start_wrong, fixed_bits_wrong, scrambled, not_aligned, flags_wrong, not_whole};
ghost use Rattle.pes.specs.Pes.{least_length_byte, length_byte_short, prefix_wrong, marker_wrong, time_stamp_wrong};
ghost use Rattle.pes.specs.Pes.{stamp_wrong, both_wrong, times_wrong, header_wrong};

use crate::fields::{header_size, pts_alone, pts_and_dts, pts_dts_flags};
use lists::byte_at;

// What a PES of stream_id 0xBD starts with: packet_start_code_prefix and stream_id.
// Stays: the bytes are a constant, whose type is their number.
const START: [u8; 4] = [0x00, 0x00, 0x01, 0xBD];

// Returns true if the payload does not begin with packet_start_code_prefix and stream_id 0xBD.
#[tactic(auto, using(crate::proofs::Starts::same_by_elements))]
fn start_wrong(payload: &[u8]) -> bool
    ensures { result ≡ start_wrong payload.now }
{
    !payload.starts_with(&START)
}

// Returns true if the bits before PES_scrambling_control are not 10.
fn fixed_bits_wrong(payload: &[u8]) -> bool
    ensures { result ≡ fixed_bits_wrong payload.now }
{
    byte_at(payload, 6) / 64 % 4 != 2
}

// Returns true if PES_scrambling_control is not 00.
fn scrambled(payload: &[u8]) -> bool
    ensures { result ≡ scrambled payload.now }
{
    byte_at(payload, 6) / 16 % 4 != 0
}

// Returns true if data_alignment_indicator is not 1.
fn not_aligned(payload: &[u8]) -> bool
    ensures { result ≡ not_aligned payload.now }
{
    byte_at(payload, 6) / 4 % 2 != 1
}

// Returns true if PTS_DTS_flags are 01.
fn flags_wrong(payload: &[u8]) -> bool
    ensures { result ≡ flags_wrong payload.now }
{
    pts_dts_flags(payload) == 1
}

// Returns true if the header is longer than the payload.
fn not_whole(payload: &[u8]) -> bool
    ensures { result ≡ not_whole payload.now }
{
    payload.len() < usize::from(header_size(payload))
}

// Returns the least PES_header_data_length that the flags ask for.
#[tactic(auto, unfolding(crate::specs::Pes::least_length_byte, lists::specs::Lists::pick))]
fn least_length_byte(payload: &[u8]) -> u8
    ensures { result ≡ least_length_byte payload.now }
{
    if pts_alone(payload) {
        5
    } else if pts_and_dts(payload) {
        10
    } else {
        0
    }
}

// Returns true if PES_header_data_length is less than that.
fn length_byte_short(payload: &[u8]) -> bool
    ensures { result ≡ length_byte_short payload.now }
{
    byte_at(payload, 8) < least_length_byte(payload)
}

// Returns true if the four bits before a time stamp are not this prefix.
fn prefix_wrong(prefix: u8, first: u8) -> bool
    ensures { result ≡ prefix_wrong prefix first }
{
    first / 16 % 16 != prefix
}

// Returns true if the marker bit of a byte is not 1.
fn marker_wrong(x: u8) -> bool
    ensures { result ≡ marker_wrong x }
{
    x % 2 != 1
}

// Returns true if the prefix or a marker bit of a time stamp is wrong, by its first, third and fifth byte.
#[tactic(auto, unfolding(crate::specs::Pes::time_stamp_wrong, lists::specs::Lists::any))]
fn time_stamp_wrong(prefix: u8, first: u8, third: u8, fifth: u8) -> bool
    ensures { result ≡ time_stamp_wrong prefix first third fifth }
{
    prefix_wrong(prefix, first) || marker_wrong(first) || marker_wrong(third) || marker_wrong(fifth)
}

// Returns true if the time stamp whose five bytes begin at this offset is wrong.
fn stamp_wrong(prefix: u8, payload: &[u8], at: usize) -> bool
    requires { at ≤ 14 }
    ensures { result ≡ stamp_wrong prefix payload.now at }
{
    time_stamp_wrong(
        prefix,
        byte_at(payload, at),
        byte_at(payload, at + 2),
        byte_at(payload, at + 4),
    )
}

// Returns true if the PTS or the DTS that follows it is wrong.
fn both_wrong(payload: &[u8]) -> bool
    ensures { result ≡ both_wrong payload.now }
{
    stamp_wrong(3, payload, 9) || stamp_wrong(1, payload, 14)
}

// Returns true if a time stamp that the flags say to follow is wrong.
#[tactic(auto, unfolding(crate::specs::Pes::times_wrong, lists::specs::Lists::pick))]
fn times_wrong(payload: &[u8]) -> bool
    ensures { result ≡ times_wrong payload.now }
{
    if pts_alone(payload) {
        stamp_wrong(2, payload, 9)
    } else {
        pts_and_dts(payload) && both_wrong(payload)
    }
}

// Returns true if the header is refused by 29.
#[tactic(auto, unfolding(crate::specs::Pes::header_wrong, lists::specs::Lists::any))]
pub(crate) fn header_wrong(payload: &[u8]) -> bool
    ensures { result ≡ header_wrong payload.now }
{
    start_wrong(payload)
        || fixed_bits_wrong(payload)
        || scrambled(payload)
        || not_aligned(payload)
        || flags_wrong(payload)
        || not_whole(payload)
        || length_byte_short(payload)
        || times_wrong(payload)
}

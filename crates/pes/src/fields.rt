// The fields of a PES header.
ghost use Rattle.std.specs.Prelude.{◌≡◌, ◌≤◌};
ghost use Rattle.pes.specs.Pes.{pes_packet_length, pts_dts_flags, header_size, no_times, pts_alone, pts_and_dts, pts};
ghost use Rattle.pes.specs.Pes.{stamp_at, dts};

use lists::byte_at;
use ticks::Ticks90;

// Returns PES_packet_length.
pub(crate) fn packet_length(payload: &[u8]) -> u16
    ensures { result ≡ pes_packet_length payload.now }
{
    u16::from_be_bytes([byte_at(payload, 4), byte_at(payload, 5)])
}

// Returns the size of the header: nine bytes and PES_header_data_length.
pub(crate) fn header_size(payload: &[u8]) -> u16
    ensures { result ≡ header_size payload.now }
{
    9 + u16::from(byte_at(payload, 8))
}

// Returns PTS_DTS_flags.
pub(crate) fn pts_dts_flags(payload: &[u8]) -> u8
    ensures { result ≡ pts_dts_flags payload.now }
{
    byte_at(payload, 7) / 64 % 4
}

// Returns true if neither PTS nor DTS follows.
pub(crate) fn no_times(payload: &[u8]) -> bool
    ensures { result ≡ no_times payload.now }
{
    pts_dts_flags(payload) == 0
}

// Returns true if a PTS follows and no DTS.
pub(crate) fn pts_alone(payload: &[u8]) -> bool
    ensures { result ≡ pts_alone payload.now }
{
    pts_dts_flags(payload) == 2
}

// Returns true if both follow.
pub(crate) fn pts_and_dts(payload: &[u8]) -> bool
    ensures { result ≡ pts_and_dts payload.now }
{
    pts_dts_flags(payload) == 3
}

// Returns the time stamp whose five bytes begin at this offset.
fn stamp_at(payload: &[u8], at: usize) -> Ticks90
    requires { at ≤ 14 }
    ensures { result ≡ stamp_at payload.now at }
{
    Ticks90::time_stamp(
        byte_at(payload, at),
        byte_at(payload, at + 1),
        byte_at(payload, at + 2),
        byte_at(payload, at + 3),
        byte_at(payload, at + 4),
    )
}

// Returns the PTS.
pub(crate) fn pts(payload: &[u8]) -> Ticks90
    ensures { result ≡ pts payload.now }
{
    stamp_at(payload, 9)
}

// Returns the DTS, or the PTS if the DTS is absent.
#[tactic(auto, unfolding(crate::specs::Pes::dts, lists::specs::Lists::pick))]
pub(crate) fn dts(payload: &[u8]) -> Ticks90
    ensures { result ≡ dts payload.now }
{
    if pts_and_dts(payload) {
        stamp_at(payload, 14)
    } else {
        pts(payload)
    }
}

// The first packet of a unit's PES: how many of the unit's bytes it has, and its flags.
ghost use Rattle.std.specs.Prelude.{◌≡◌, ◌+◌, ◌≤◌, length};
ghost use Rattle.mux_rules.specs.Packets.{first_most, frame_place, within};
ghost use Rattle.mux.specs.Parts.{first_size, flags_of};

use crate::frames::frame_begins;
use packet_writer::MOST_PAYLOAD;

// Returns how many bytes of a PES it has at most.
pub(crate) fn first_most(marked: bool) -> usize
    ensures value { result ≡ first_most marked }
    ensures lower_bound { (182 ≤ result) × (result ≤ 184) }
{
    if marked {
        return 182;
    }
    MOST_PAYLOAD
}

// Returns how many of a unit's `n` bytes it has, behind a header of `head` bytes.
pub(crate) fn first_size(marked: bool, head: usize, n: usize) -> usize
    requires { head ≤ 19 }
    ensures value { result ≡ first_size marked head n }
    ensures upper_bound { (result ≤ n) × (head + result ≤ 184) }
{
    n.min(first_most(marked) - head)
}

// Returns the flags of its adaptation field, if it has `n` of the unit's bytes.
pub(crate) fn first_flags(marked: bool, unit: &[u8], n: usize) -> u8
    requires { n ≤ length unit.now }
    ensures { result ≡ flags_of marked (within n (frame_place unit.now)) }
{
    if marked {
        if frame_begins(unit, n) {
            return 96;
        }
        return 64;
    }
    0
}

// The slots of a queue: whether its units can stand in the store, and how many packets they take.
ghost use Rattle.std.specs.Prelude.{◌≡◌, true, ◌≤◌};
ghost use Rattle.mux_rules.specs.Packets.{others_for};
ghost use Rattle.mux.specs.Parts.{filled, slot_wrong, well_formed, slot_packets, slots_packets};

use crate::starting::first_most;
use packet_writer::head_size;
use queue::{Queue, Queued};
use unit::MOST_CARRIED;

// Returns true if no unit in `room` bytes can have this slot.
#[tactic(auto, unfolding(crate::specs::Parts::slot_wrong))]
fn slot_wrong(slot: Queued, room: usize) -> bool
    ensures { result ≡ slot_wrong slot room }
{
    MOST_CARRIED < slot.length
        || room < slot.length
        || 8589934592 <= slot.pts.0
        || 8589934592 <= slot.dts.0
}

// Returns the slots that are filled, of which there are at most eight.
pub(crate) fn filled(queue: &Queue) -> &[Queued]
    requires { queue.now.count ≤ 8 }
    ensures { result.now ≡ filled queue.now }
{
    &queue.units[..queue.count]
}

// Returns true if at most eight slots are filled, and each can be that of a unit in the bytes that the ones before it
// leave of `room`.
pub(crate) fn well_formed(queue: &Queue, room: usize) -> bool
    ensures { result ≡ well_formed queue.now room }
{
    if 8 < queue.count {
        return false;
    }
    let slots = filled(queue);
    let mut left = room;
    for slot in slots {
        if slot_wrong(*slot, left) {
            return false;
        }
        left -= slot.length;
    }
    true
}

// Returns how many packets follow the first, of so many bytes.
fn others_for(n: usize) -> usize
    requires { n ≤ 1573075 }
    ensures { result ≡ others_for n }
{
    (n + 183) / 184
}

// Returns how many packets a slot's unit takes.
pub(crate) fn slot_packets(slot: Queued) -> usize
    requires { slot.length ≤ 1573056 }
    ensures { (result ≡ slot_packets slot) × (result ≤ 8551) }
{
    let most = first_most(slot.marked);
    let whole = head_size(slot.pts, slot.dts) + slot.length;
    if whole < most {
        return 1;
    }
    1 + others_for(whole - most)
}

// Returns how many packets all units take.
pub(crate) fn queue_packets(queue: &Queue, room: usize) -> usize
    requires { well_formed queue.now room ≡ true }
    ensures { (result ≡ slots_packets (filled queue.now)) × (result ≤ 68408) }
{
    let slots = filled(queue);
    let mut total: usize = 0;
    for slot in slots {
        total += slot_packets(*slot);
    }
    total
}

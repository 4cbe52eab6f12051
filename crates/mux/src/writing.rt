// A unit's PES, and those of all units, put into the output.
ghost use Rattle.std.specs.Prelude.{◌≡◌, true, ◌*◌, ◌≤◌, ◌<◌, length};
ghost use mathlib.Core.List.{flatten};
ghost use Rattle.lists.specs.Lists.{over};
ghost use Rattle.mux_rules.specs.Packets.{packets_for, unit_packets, units_packets};
ghost use Rattle.mux.specs.Parts.{filled, slot_unit, slot_units, well_formed, slots_packets};

use crate::cutting::{Stream, counter_after, put_others};
use crate::measuring::{filled, slot_packets};
use crate::starting::{first_flags, first_size};
use lists::{part, rest};
use packet::PACKET_LENGTH;
use packet_writer::{Start, head_size, put_start};
use queue::{Queue, Queued};

// Writes the packets of a unit, whose slot is this.
fn put_unit(stream: Stream, slot: Queued, unit: &[u8], out: &mut [u8])
    requires { (slot.pts.0 < 8589934592) × (slot.dts.0 < 8589934592)
        × (188 * packets_for (slot_unit slot unit.now) ≤ length out.old) }
    ensures { out.new
        ≡ over (flatten (unit_packets stream.pid stream.counter (slot_unit slot unit.now))) out.old }
{
    let pts = slot.pts;
    let dts = slot.dts;
    let length = unit.len();
    let first = first_size(slot.marked, head_size(pts, dts), length);
    let flags = first_flags(slot.marked, unit, first);
    let start = Start {
        flags,
        pts,
        dts,
        length,
    };
    let begun = part(unit, 0, first);
    put_start(stream.pid, stream.counter, start, begun, out);
    let behind = rest(unit, first);
    let next = Stream {
        pid: stream.pid,
        counter: counter_after(stream.counter, 1),
    };
    put_others(next, behind, &mut out[PACKET_LENGTH..]);
}

// Writes the packets of all units, whose bytes stand in the store.
pub(crate) fn put_units(stream: Stream, queue: &Queue, store: &[u8], out: &mut [u8])
    requires { (well_formed queue.now (length store.now) ≡ true)
        × (188 * slots_packets (filled queue.now) ≤ length out.old) }
    ensures { out.new
        ≡ over (flatten (units_packets stream.pid stream.counter (slot_units (filled queue.now) store.now)))
        out.old }
{
    let slots = filled(queue);
    let mut at: usize = 0;
    let mut to: usize = 0;
    let mut counter = stream.counter;
    for slot in slots {
        let end = at + slot.length;
        let next = Stream {
            pid: stream.pid,
            counter,
        };
        put_unit(next, *slot, &store[at..end], &mut out[to..]);
        let packets = slot_packets(*slot);
        at = end;
        to += PACKET_LENGTH * packets;
        counter = counter_after(counter, packets);
    }
}

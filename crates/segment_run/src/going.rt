// Packets that go on with their stream, without the rules being asked of each: those that go on with the open PES, and
// those of another listed stream.
ghost use Rattle.std.specs.Prelude.{◌≡◌, ◌+◌, ◌/◌, ◌≤◌, length};
ghost use Rattle.segment_run.specs.Parts.{DueRefines, GoesOn, last_went, is_opened};

use extraction::State;
use packet::{Last, Streams, packet_at};
use plain::{count_on, follow, pid_of};
use tables::Kind;

// Packets of a PID that may go on: the slot of its record, and the counter of its last packet.
#[derive(Clone, Copy)]
enum Due {
    Av1 { slot: usize, counter: u8 },
    Listed { slot: usize, counter: u8 },
}

// Packets that went on: how many, and whether they are on the AV1 PID.
#[derive(Clone, Copy)]
pub(crate) struct Went {
    pub packets: usize,
    pub av1: bool,
}

// Returns whether a PES is open and a PCR has counted.
fn may_go_on(state: State) -> bool
    ensures { result ≡ is_opened state }
{
    state.extraction.pes.is_some() && state.tables.pcr.is_some()
}

// Returns which packets of this PID may go on: if it is listed, a packet of it was seen, and on the AV1 PID a PES is
// open and a PCR has counted.
fn due_after(pid: u16, state: State, records: &Streams) -> Option<Due>
    ensures { DueRefines state records.now pid result }
{
    match state.tables.kind_of(records, pid) {
        Kind::Av1(slot) => {
            if !may_go_on(state) {
                return None;
            }
            let last = records.last_at(slot)?;
            Some(Due::Av1 {
                slot,
                counter: last.counter,
            })
        }
        Kind::Listed(slot) => {
            let last = records.last_at(slot)?;
            Some(Due::Listed {
                slot,
                counter: last.counter,
            })
        }
        Kind::Null => None,
        Kind::Pat => None,
        Kind::Map => None,
        Kind::Unlisted => None,
    }
}

// Writes the last of so many packets from this index on in a slot, if the counter before them was this one. If there
// are none, the records are left unchanged.
fn put_went(records: &mut Streams, slot: usize, counter: u8, index: usize, packets: usize)
    requires { index + packets ≤ 0xFFFFFFFFFFFFFFFF }
    ensures { records.new ≡ last_went records.old slot counter index packets }
{
    if packets == 0 {
        return;
    }
    let last = Last {
        counter: ((counter as usize + packets % 16) % 16) as u8,
        index: index + packets - 1,
        repeat: false,
    };
    records.put_last(slot, Some(last));
}

// Passes over the packets from this index on that go on, one after the other. On the AV1 PID their payloads are written
// behind what is there of its unit.
pub(crate) fn go_on(
    segment: &[u8],
    index: usize,
    state: State,
    records: &mut Streams,
    out: &mut [u8],
) -> Went
    requires { (index ≤ length segment.now / 188)
        × (state.extraction.start + state.extraction.bytes ≤ length out.old) }
    ensures { GoesOn segment.now index state records.old out.old result
        records.new out.new }
{
    let pid = pid_of(packet_at(segment, index));
    let Some(due) = due_after(pid, state, records) else {
        return Went {
            packets: 0,
            av1: false,
        };
    };
    match due {
        Due::Av1 { slot, counter } => {
            let written = state.extraction.start + state.extraction.bytes;
            let packets = follow(segment, index, pid, counter, &mut out[written..]);
            put_went(records, slot, counter, index, packets);
            Went { packets, av1: true }
        }
        Due::Listed { slot, counter } => {
            let packets = count_on(segment, index, pid, counter);
            put_went(records, slot, counter, index, packets);
            Went {
                packets,
                av1: false,
            }
        }
    }
}

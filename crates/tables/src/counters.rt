// The counters of PID 0, the map PID and the listed PIDs.
ghost use Rattle.std.specs.Prelude.{◌≡◌};
ghost use Rattle.tables.specs.Tables.{counter_result, CounterRefines, CounterRefused};
ghost use Rattle.tables.specs.Parts.{last_repeated, EqualRefines};

use crate::state::Packet;
use packet::{Last, Stream, Streams, packet_at, same_bytes};
use refusal::Refused;

// Returns whether all bytes of a packet but those of the PCR equal those of its PID's last packet. If a packet with
// payload follows the last one, its counter is another, and the comparison ends at the fourth byte.
fn equals_last(segment: &[u8], last: Option<Last>, packet: &[u8]) -> bool
    ensures { EqualRefines segment.now last packet.now result }
{
    let Some(last) = last else {
        return false;
    };
    same_bytes(packet_at(segment, last.index), packet)
}

// Returns whether the last packet, if there is one, was a repeat.
fn is_repeat(last: Option<Last>) -> bool
    ensures { result ≡ last_repeated last }
{
    last.is_some_and(|last| last.repeat)
}

// Checks the counter of a packet of the segment, and returns whether the packet is a repeat. Returns refusal 24 at the
// packet's index if the counter is wrong; the records are then left unchanged.
pub fn check_counter(segment: &[u8], packet: Packet, records: &mut Streams) -> Result<bool, Refused>
    ensures counter_refines { CounterRefines segment.now packet records.old (counter_result result) records.new }
    ensures counter_refused { CounterRefused records.old (counter_result result) records.new }
{
    let Some(slot) = packet.kind.slot() else {
        return Ok(false);
    };
    let header = packet.header;
    let last = records.last_at(slot);
    let equal = equals_last(segment, last, packet_at(segment, packet.index));
    let stream = Stream {
        pid: header.pid,
        last,
    };
    let checked = stream.check(header.counted(packet.index, equal));
    if let Err(refused) = checked.verdict {
        return Err(refused.why.at(packet.index));
    }
    let last = checked.stream.last;
    records.put_last(slot, last);
    Ok(is_repeat(last))
}

// Send.
ghost use Rattle.std.specs.Prelude.{◌≡◌, false, List, ◌≤◌, ◌<◌, length};
ghost use Rattle.lists.specs.Lists.{over};
ghost use Rattle.queue.specs.Queue.{TimedUnit, QueueIs};
ghost use Rattle.mux_rules.specs.Sending.{channel_wrong, Sends};
ghost use Rattle.mux_rules.specs.Packets.{channel_after};
ghost use Rattle.mux.specs.Parts.{table_packets};

use crate::channel::channel_wrong;
use crate::cutting::{Stream, counter_after};
use crate::measuring::{queue_packets, well_formed};
use crate::writing::put_units;
use mux_rules::{Channel, Written};
use packet::PACKET_LENGTH;
use packet_writer::{put_pat, put_pcr, put_pmt};
use queue::Queue;
use refusal::{Refusal, Refused};

// Where the PCR's packet stands, behind PAT and PMT, and where the first unit's.
const PCR_PLACE: usize = 2 * PACKET_LENGTH;

const UNITS_PLACE: usize = 3 * PACKET_LENGTH;

// The most packets of a segment.
const MOST_PACKETS: usize = 65535;

// Writes PAT, PMT and PCR.
fn put_tables(channel: Channel, video: &[u8], out: &mut [u8])
    requires { (channel_wrong channel video.now ≡ false) × (564 ≤ length out.old) }
    ensures { out.new ≡ over (table_packets channel video.now) out.old }
{
    put_pat(channel.pat_counter, channel.program, channel.map_pid, out);
    put_pmt(
        channel.map_pid,
        channel.map_counter,
        channel.program,
        channel.av1_pid,
        video,
        &mut out[PACKET_LENGTH..],
    );
    put_pcr(
        channel.av1_pid,
        channel.av1_counter,
        channel.pcr,
        &mut out[PCR_PLACE..],
    );
}

// Advances the counters past a segment with `n` packets of units.
fn advance(channel: &mut Channel, n: usize)
    requires { (channel.old.pat_counter < 16) × (channel.old.map_counter < 16)
        × (channel.old.av1_counter < 16) × (n ≤ 68408) }
    ensures { channel.new ≡ channel_after channel.old n }
{
    channel.pat_counter = counter_after(channel.pat_counter, 1);
    channel.map_counter = counter_after(channel.map_counter, 1);
    channel.av1_counter = counter_after(channel.av1_counter, n);
}

// Writes the queued units, whose bytes stand in the store, as a segment. The queue is then empty, and the channel has
// the counters that follow. Returns refusal 52, 53 or 8; queue, channel and `out` are then left unchanged.
pub fn send(
    queue: &mut Queue,
    store: &[u8],
    channel: &mut Channel,
    video: &[u8],
    out: &mut [u8],
) -> Result<Written, Refused>
    ensures { (units : List TimedUnit) → QueueIs queue.old store.now units
        → Sends channel.old video.now units out.old
        (record { answer = result; next = channel.new; queue = queue.new }) out.new }
{
    if channel_wrong(*channel, video) {
        return Err(Refusal::Channel.at(0));
    }
    if !well_formed(queue, store.len()) {
        return Err(Refusal::NoRoom.at(0)); // no queue that the operations lead to
    }
    let units = queue_packets(queue, store.len());
    let packets = 3 + units;
    if MOST_PACKETS < packets {
        return Err(Refusal::PacketsToSend.at(0));
    }
    let bytes = PACKET_LENGTH * packets;
    if out.len() < bytes {
        return Err(Refusal::NoRoom.at(0));
    }
    put_tables(*channel, video, out);
    let stream = Stream {
        pid: channel.av1_pid,
        counter: channel.av1_counter,
    };
    put_units(stream, queue, store, &mut out[UNITS_PLACE..]);
    advance(channel, units);
    queue.clear();
    Ok(Written { bytes, packets })
}

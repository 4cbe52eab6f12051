// What is not written: a number that its field cannot hold, a payload that is too long, an output without room.
ghost use Rattle.std.specs.Prelude.{◌≡◌, ◌<◌};
ghost use Rattle.packet_writer.specs.Putting.{unfit, packet_unfit, pat_unfit, pmt_unfit, pcr_unfit, start_unfit};

use crate::Start;
use crate::headers::head_size;
use crate::packets::MOST_PAYLOAD;
use packet::PACKET_LENGTH;
use ticks::Ticks27;

// The last continuity counter.
const LAST_COUNTER: u64 = 15;

// A PID of 13 bits, and the counter of four bits of one of its packets.
#[derive(Clone, Copy)]
pub(crate) struct Place {
    pub pid: u64,
    pub counter: u64,
    ghost in_range: { (pid < 8192) × (counter < 16) },
}

// Returns true if the PID has more than 13 bits, the counter more than four, or the output no room for a packet.
#[tactic(auto, unfolding(crate::specs::Putting::unfit))]
// Stays: the public functions take each field as a number, whatever its value; what fits its field is a `Place`.
fn unfit(pid: u64, counter: u64, room: usize) -> bool
    ensures { result ≡ unfit pid counter room }
{
    8191 < pid || LAST_COUNTER < counter || room < PACKET_LENGTH
}

// Returns true if no packet is put with a payload of `n` bytes.
#[tactic(auto, unfolding(crate::specs::Putting::packet_unfit))]
pub(crate) fn packet_unfit(pid: u64, counter: u64, n: usize, room: usize) -> bool
    ensures { result ≡ packet_unfit pid counter n room }
{
    MOST_PAYLOAD < n || unfit(pid, counter, room)
}

// Returns true if no packet of a PAT is put.
#[tactic(auto, unfolding(crate::specs::Putting::pat_unfit))]
pub(crate) fn pat_unfit(counter: u64, program: u64, map_pid: u64, room: usize) -> bool
    ensures { result ≡ pat_unfit counter program map_pid room }
{
    65535 < program || 8191 < map_pid || unfit(0, counter, room)
}

// Returns true if no packet of a PMT is put with a descriptor of `n` bytes.
#[tactic(auto, unfolding(crate::specs::Putting::pmt_unfit))]
pub(crate) fn pmt_unfit(
    map_pid: u64,
    counter: u64,
    program: u64,
    pid: u64,
    n: usize,
    room: usize,
) -> bool
    ensures { result ≡ pmt_unfit map_pid counter program pid n room }
{
    n != 6 || 65535 < program || 8191 < pid || unfit(map_pid, counter, room)
}

// Returns true if no packet of a PCR is put.
#[tactic(auto, unfolding(crate::specs::Putting::pcr_unfit))]
pub(crate) fn pcr_unfit(pid: u64, counter: u64, pcr: Ticks27, room: usize) -> bool
    ensures { result ≡ pcr_unfit pid counter pcr room }
{
    2576980377600 <= pcr.0 || unfit(pid, counter, room)
}

// Returns true if no first packet of a PES is put with `n` of the unit's bytes.
#[tactic(auto, unfolding(crate::specs::Putting::start_unfit))]
pub(crate) fn start_unfit(pid: u64, counter: u64, start: Start, n: usize, room: usize) -> bool
    ensures { result ≡ start_unfit pid counter start n room }
{
    8589934592 <= start.pts.0
        || 8589934592 <= start.dts.0
        || MOST_PAYLOAD - head_size(start.pts, start.dts) < n
        || unfit(pid, counter, room)
}

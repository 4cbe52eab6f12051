// A unit's PES put into the output, packet by packet.
ghost use Rattle.std.specs.Prelude.{◌≡◌, ◌*◌, ◌≤◌, ◌<◌, length};
ghost use mathlib.Core.List.{flatten};
ghost use Rattle.lists.specs.Lists.{over};
ghost use Rattle.packet.specs.Writing.{counter_after};
ghost use Rattle.mux_rules.specs.Packets.{others_for, others};

use packet::PACKET_LENGTH;
use packet_writer::{MOST_PAYLOAD, put_packet};

// A PID of 13 bits, and the counter of four bits of its next packet.
#[derive(Clone, Copy)]
pub(crate) struct Stream {
    pub pid: u64,
    pub counter: u64,
    ghost in_range: { (pid < 8192) × (counter < 16) },
}

// Returns the counter after `n` packets more.
pub(crate) fn counter_after(counter: u64, n: usize) -> u64
    requires { (counter < 16) × (n ≤ 68408) }
    ensures { result ≡ counter_after counter n }
{
    (counter + n as u64) % 16
}

// Writes the packets after a PES's first, with these bytes.
pub(crate) fn put_others(stream: Stream, bytes: &[u8], out: &mut [u8])
    requires { 188 * others_for (length bytes.now) ≤ length out.old }
    ensures { out.new
        ≡ over (flatten (others (others_for (length bytes.now)) stream.pid stream.counter bytes.now))
        out.old }
{
    let mut to: usize = 0;
    let mut next = stream.counter;
    for payload in bytes.chunks(MOST_PAYLOAD) {
        put_packet(stream.pid, next, payload, &mut out[to..]);
        to += PACKET_LENGTH;
        next = counter_after(next, 1);
    }
}

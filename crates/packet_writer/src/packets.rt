// A packet with payload put into the output.
ghost use Rattle.std.specs.Prelude.{◌≡◌, ◌+◌, ◌≤◌, ◌<◌, ◌++◌, length};
ghost use Rattle.lists.specs.Lists.{over};
ghost use Rattle.packet.specs.Writing.{header, control, adaptation_field, carrying};
ghost use Rattle.packet_writer.specs.Putting.{packet_put};

use crate::bytes::{copy_at, fill_at, two_bytes};
use crate::unfit::{Place, packet_unfit};
use lists::copy;

// The most bytes of a packet's payload.
pub const MOST_PAYLOAD: usize = 184;

// Returns adaptation_field_control if the field takes `n` bytes.
fn control(n: usize) -> u8
    ensures { result ≡ control n }
{
    if n == 0 { 1 } else { 3 }
}

// Writes the four bytes of the header: payload_unit_start_indicator stands above the PID, adaptation_field_control
// above the counter.
pub(crate) fn put_header(place: Place, start: bool, control: u8, out: &mut [u8])
    requires { (control < 4) × (4 ≤ length out.old) }
    ensures { out.new ≡ over (header place.pid start control place.counter) out.old }
{
    let pid = two_bytes(place.pid);
    let flag = if start { 64 } else { 0 };
    let head = [
        71,
        flag + pid[0],
        pid[1],
        control * 16 + place.counter as u8,
    ];
    copy(&head, out);
}

// Writes an adaptation field that takes `n` bytes.
fn put_field(n: usize, flags: u8, out: &mut [u8])
    requires { (n ≤ 184) × (n ≤ length out.old) }
    ensures { out.new ≡ over (adaptation_field n flags) out.old }
{
    if n == 0 {
        return;
    }
    if n == 1 {
        out[0] = 0;
        return;
    }
    let head = [(n - 1) as u8, flags];
    copy(&head, out);
    fill_at(n - 2, 2, out);
}

// Writes a packet with a payload of at most 184 bytes, which is lent in two parts.
pub(crate) fn put_parts(
    place: Place,
    start: bool,
    flags: u8,
    head: &[u8],
    part: &[u8],
    out: &mut [u8],
)
    requires { (length head.now + length part.now ≤ 184) × (188 ≤ length out.old) }
    ensures { out.new
        ≡ over (carrying place.pid start place.counter flags (head.now ++ part.now)) out.old }
{
    let n = MOST_PAYLOAD - head.len() - part.len();
    put_header(place, start, control(n), out);
    put_field(n, flags, &mut out[4..]);
    let at = 4 + n;
    copy_at(head, at, out);
    copy_at(part, at + head.len(), out);
}

// Writes a packet that goes on with a PES, with this payload. If a number does not fit or `out` is too short, `out` is
// left unchanged.
pub fn put_packet(pid: u64, counter: u64, payload: &[u8], out: &mut [u8])
    ensures { out.new ≡ packet_put pid counter payload.now out.old }
{
    if packet_unfit(pid, counter, payload.len(), out.len()) {
        return;
    }
    let place = Place { pid, counter };
    put_parts(place, false, 0, &[], payload, out);
}

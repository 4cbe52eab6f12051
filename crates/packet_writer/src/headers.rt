// The first packet of a unit's PES, with the PES header.
ghost use Rattle.std.specs.Prelude.{◌≡◌, ◌+◌, ◌*◌, ◌/◌, ◌%◌, ◌≤◌, ◌<◌};
ghost use Rattle.ticks.specs.Writing.{time_bytes};
ghost use Rattle.pes.specs.Writing.{pes_header};
ghost use Rattle.packet_writer.specs.Parts.{field_of};
ghost use Rattle.packet_writer.specs.Putting.{head_size, start_put};

use crate::Start;
use crate::bytes::two_bytes;
use crate::packets::put_parts;
use crate::unfit::{Place, start_unfit};
use ticks::Ticks90;

fn first_byte(prefix: u8, time: u64) -> u8
    requires { (prefix < 16) × (time < 8589934592) }
    ensures { result ≡ prefix * 16 + time / 1073741824 * 2 + 1 }
{
    prefix * 16 + (time / 1073741824) as u8 * 2 + 1
}

fn marked_byte(x: u64) -> u8
    ensures { result ≡ x % 128 * 2 + 1 }
{
    (x % 128) as u8 * 2 + 1
}

// Returns the five bytes of a time stamp.
fn time_bytes(prefix: u8, time: Ticks90) -> [u8; 5]
    requires { (prefix < 16) × (time.0 < 8589934592) }
    ensures { result ≡ time_bytes prefix time }
{
    let t = time.0;
    let first = first_byte(prefix, t);
    let third = marked_byte(t / 32768);
    let fifth = marked_byte(t);
    [
        first,
        (t / 4194304 % 256) as u8,
        third,
        (t / 128 % 256) as u8,
        fifth,
    ]
}

// Returns PES_packet_length, of `head` bytes of the header behind it and `n` of the unit.
fn length_field(head: usize, n: usize) -> u64
    requires { head ≤ 13 }
    ensures value { result ≡ field_of (head + n) }
    ensures upper_bound { result < 65536 }
{
    if 65535 - head < n {
        return 0;
    }
    (head + n) as u64
}

// Returns the header of a PES with a unit of `length` bytes, with a PTS alone.
fn with_pts(time: Ticks90, length: usize) -> [u8; 14]
    requires { time.0 < 8589934592 }
    ensures { result ≡ pes_header time time length }
{
    let n = two_bytes(length_field(8, length));
    let t = time_bytes(2, time);
    [
        0, 0, 1, 189, n[0], n[1], 132, 128, 5, t[0], t[1], t[2], t[3], t[4],
    ]
}

// Returns the header of a PES with a unit of `length` bytes, with both times.
fn with_both(pts: Ticks90, dts: Ticks90, length: usize) -> [u8; 19]
    requires { (pts.0 < 8589934592) × (dts.0 < 8589934592) × ((pts.0 ≡ dts.0) → ⊥) }
    ensures { result ≡ pes_header pts dts length }
{
    let n = two_bytes(length_field(13, length));
    let p = time_bytes(3, pts);
    let d = time_bytes(1, dts);
    [
        0, 0, 1, 189, n[0], n[1], 132, 192, 10, p[0], p[1], p[2], p[3], p[4], d[0], d[1], d[2],
        d[3], d[4],
    ]
}

// Returns how many bytes the header of a PES has.
pub fn head_size(pts: Ticks90, dts: Ticks90) -> usize
    ensures value { result ≡ head_size pts dts }
    ensures upper_bound { result ≤ 19 }
{
    if pts.0 == dts.0 {
        return 14;
    }
    19
}

// Writes the first packet of a PES: its header, and the first bytes of the unit. If a number does not fit or `out` is
// too short, `out` is left unchanged.
pub fn put_start(pid: u64, counter: u64, start: Start, begun: &[u8], out: &mut [u8])
    ensures { out.new ≡ start_put pid counter start begun.now out.old }
{
    if start_unfit(pid, counter, start, begun.len(), out.len()) {
        return;
    }
    let place = Place { pid, counter };
    if start.pts.0 == start.dts.0 {
        let head = with_pts(start.pts, start.length);
        put_parts(place, true, start.flags, &head, begun, out);
        return;
    }
    let head = with_both(start.pts, start.dts, start.length);
    put_parts(place, true, start.flags, &head, begun, out);
}

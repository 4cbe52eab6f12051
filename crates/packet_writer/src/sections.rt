// The packets of the PAT and the PMT.
ghost use Rattle.std.specs.Prelude.{true, ◌≡◌, ◌++◌, ◌+◌, ◌≤◌, ◌<◌, length};
ghost use Rattle.lists.specs.Lists.{over};
ghost use Rattle.packet.specs.Writing.{carrying};
ghost use Rattle.psi.specs.Writing.{section_start, section_body, section, section_payload};
ghost use Rattle.packet_writer.specs.Putting.{pat_put, pmt_put};

use crate::bytes::{copy_at, fill_at, two_bytes};
use crate::packets::put_header;
use crate::unfit::{Place, pat_unfit, pmt_unfit};
use lists::{copy, part};
use packet::PACKET_LENGTH;

// A section up to its CRC: table_id, the number that follows section_length, and the bytes behind the first eight, lent
// in two parts.
#[derive(Clone, Copy)]
struct Body<'a> {
    table: u8,
    extension: u64,
    front: &'a [u8],
    tail: &'a [u8],
    ghost fits: { (extension < 65536) × (length front.now + length tail.now ≤ 171) },
}

// Returns the eight bytes that a section begins with, of which `n` bytes follow up to the CRC.
fn section_start(table: u8, extension: u64, n: usize) -> [u8; 8]
    requires { (extension < 65536) × (n ≤ 171) }
    ensures { result ≡ section_start table extension n }
{
    let number = two_bytes(extension);
    [table, 176, (9 + n) as u8, number[0], number[1], 193, 0, 0]
}

// Writes a section up to its CRC.
fn put_body(body: Body, out: &mut [u8])
    requires { 8 + (length body.front.now + length body.tail.now) ≤ length out.old }
    ensures { out.new
        ≡ over (section_body body.entry.table body.entry.extension
        (body.entry.front.now ++ body.entry.tail.now)) out.old }
{
    let n = body.front.len() + body.tail.len();
    let start = section_start(body.table, body.extension, n);
    copy(&start, out);
    copy_at(body.front, 8, out);
    copy_at(body.tail, 8 + body.front.len(), out);
}

// Writes a section.
fn put_section(body: Body, out: &mut [u8])
    requires { 12 + (length body.front.now + length body.tail.now) ≤ length out.old }
    ensures { out.new
        ≡ over (section body.entry.table body.entry.extension
        (body.entry.front.now ++ body.entry.tail.now)) out.old }
{
    put_body(body, out);
    let at = 8 + (body.front.len() + body.tail.len());
    let crc = crc::crc32(part(out, 0, at));
    copy_at(&crc.to_be_bytes(), at, out);
}

// Writes the packet of a section.
// Stays: a packet goes over the front of a longer output, and the contract names the whole output.
fn put_section_packet(place: Place, body: Body, out: &mut [u8])
    requires { 188 ≤ length out.old }
    ensures { out.new
        ≡ over (carrying place.pid true place.counter 0
        (section_payload (section body.entry.table body.entry.extension
        (body.entry.front.now ++ body.entry.tail.now)))) out.old }
{
    put_header(place, true, 1, out);
    copy_at(&[0], 4, out);
    put_section(body, &mut out[5..]);
    let at = 17 + (body.front.len() + body.tail.len());
    fill_at(PACKET_LENGTH - at, at, out);
}

// Writes the packet of the PAT. If a number does not fit or `out` is too short, `out` is left unchanged.
pub fn put_pat(counter: u64, program: u64, map_pid: u64, out: &mut [u8])
    ensures { out.new ≡ pat_put counter program map_pid out.old }
{
    if pat_unfit(counter, program, map_pid, out.len()) {
        return;
    }
    let number = two_bytes(program);
    let pid = two_bytes(57344 + map_pid);
    let body = Body {
        table: 0,
        extension: 0,
        front: &number,
        tail: &pid,
    };
    put_section_packet(Place { pid: 0, counter }, body, out);
}

// Writes the packet of the PMT, with one entry: the registration and this video descriptor. If a number does not fit or
// `out` is too short, `out` is left unchanged.
pub fn put_pmt(map_pid: u64, counter: u64, program: u64, pid: u64, video: &[u8], out: &mut [u8])
    ensures { out.new
        ≡ pmt_put map_pid counter program pid video.now out.old }
{
    if pmt_unfit(map_pid, counter, program, pid, video.len(), out.len()) {
        return;
    }
    let p = two_bytes(57344 + pid);
    let front = [
        p[0], p[1], 240, 0, 6, p[0], p[1], 240, 12, 5, 4, 65, 86, 48, 49,
    ];
    let body = Body {
        table: 2,
        extension: program,
        front: &front,
        tail: video,
    };
    let place = Place {
        pid: map_pid,
        counter,
    };
    put_section_packet(place, body, out);
}

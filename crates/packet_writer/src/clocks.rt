// The packet of a PCR.
ghost use Rattle.std.specs.Prelude.{◌≡◌, ◌+◌, ◌*◌, ◌/◌, ◌%◌, ◌≤◌, ◌<◌, length};
ghost use Rattle.lists.specs.Lists.{over};
ghost use Rattle.packet.specs.Writing.{pcr_packet, counter_before};
ghost use Rattle.ticks.specs.Writing.{pcr_bytes};
ghost use Rattle.packet_writer.specs.Parts.{base_bytes};
ghost use Rattle.packet_writer.specs.Putting.{pcr_put};

use crate::bytes::{copy_at, fill_at};
use crate::packets::put_header;
use crate::unfit::{Place, pcr_unfit};
use ticks::Ticks27;

// Returns a PCR's six bytes.
fn pcr_bytes(pcr: Ticks27) -> [u8; 6]
    requires { pcr.0 < 2576980377600 }
    ensures { result ≡ pcr_bytes pcr }
{
    let base = pcr.0 / 300;
    let extension = pcr.0 % 300;
    let upper = base_bytes(base);
    let last = last_base_byte(base, extension);
    let low = (extension % 256) as u8;
    [upper[0], upper[1], upper[2], upper[3], last, low]
}

// Returns the first four bytes of a PCR, whose base has 33 bits.
fn base_bytes(base: u64) -> [u8; 4]
    requires { base < 8589934592 }
    ensures { result ≡ base_bytes base }
{
    ((base / 2) as u32).to_be_bytes()
}

// Returns the fifth byte: the base's last bit, the reserved bits, the extension's first bit.
fn last_base_byte(base: u64, extension: u64) -> u8
    requires { extension < 300 }
    ensures { result ≡ base % 2 * 128 + 126 + extension / 256 }
{
    (base % 2) as u8 * 128 + 126 + (extension / 256) as u8
}

// Returns the counter before this one, modulo 16.
fn counter_before(counter: u64) -> u64
    requires { counter < 16 }
    ensures value { result ≡ counter_before counter }
    ensures upper_bound { result < 16 }
{
    (counter + 15) % 16
}

// Writes the packet with the PCR alone.
fn put_clock(place: Place, pcr: Ticks27, out: &mut [u8])
    requires { (pcr.0 < 2576980377600) × (188 ≤ length out.old) }
    ensures { out.new ≡ over (pcr_packet place.pid place.counter pcr) out.old }
{
    put_header(place, false, 2, out);
    let clock = pcr_bytes(pcr);
    copy_at(&[183, 16], 4, out);
    copy_at(&clock, 6, out);
    fill_at(176, 12, out);
}

// Writes the packet of a PCR, of the counter of its PID's next payload. If a number does not fit or `out` is too short,
// `out` is left unchanged.
pub fn put_pcr(pid: u64, counter: u64, pcr: Ticks27, out: &mut [u8])
    ensures { out.new ≡ pcr_put pid counter pcr out.old }
{
    if pcr_unfit(pid, counter, pcr, out.len()) {
        return;
    }
    let counter = counter_before(counter);
    put_clock(Place { pid, counter }, pcr, out);
}

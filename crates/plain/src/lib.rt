// Runs of packets of a segment that ask nothing of its tables: null packets, packets of one PID whose counters go on,
// and those of them that go on with a PES.
#![tactic(auto)]

ghost use Rattle.std.specs.Prelude.{◌≡◌, ◌-◌, ◌/◌, ◌≤◌, ◌<◌, length, drop};
ghost use Rattle.lists.specs.Lists.{over};
ghost use Rattle.packet.specs.Header.{packet_length, packets, packet_at};
ghost use Rattle.plain.specs.Runs.{is_null, nulls_in, next_counter, counts_on, counting_on};
ghost use Rattle.plain.specs.Runs.{goes_on, payload_length, going_on, payloads};

use lists::byte_at;
pub use packet::pid_of;
use packet::{NULL_PID, PACKET_LENGTH};

// The length of a packet's header, and of the payload of a packet that has no adaptation field.
const HEADER_LENGTH: usize = 4;

pub const PAYLOAD_LENGTH: usize = 184;

// Returns true if it is a null packet that passes 21 and 22.
fn is_null(packet: &[u8]) -> bool
    ensures { result ≡ is_null packet.now }
{
    if byte_at(packet, 0) != 0x47 {
        return false;
    }
    if byte_at(packet, 1) / 128 % 2 == 1 {
        return false;
    }
    pid_of(packet) == NULL_PID
}

// Returns the packet with index `i`.
fn packet_at(segment: &[u8], i: usize) -> &[u8]
    requires { i < length segment.now / packet_length }
    ensures { result.now ≡ packet_at segment.now i }
{
    let at = i * PACKET_LENGTH;
    &segment[at..at + PACKET_LENGTH]
}

// Returns how many packets there are from this index on.
fn packets_from(segment: &[u8], from: usize) -> usize
    ensures { result ≡ length segment.now / packet_length - from }
{
    (segment.len() / PACKET_LENGTH).saturating_sub(from)
}

// Returns how many null packets there are in a row from this index on.
pub fn nulls(segment: &[u8], from: usize) -> usize
    ensures { result ≡ nulls_in (drop from (packets segment.now)) }
{
    let left = packets_from(segment, from);
    for n in 0..left {
        if !is_null(packet_at(segment, from + n)) {
            return n;
        }
    }
    left
}

// Returns the counter that is due after this one.
fn next_counter(last: u8) -> u8
    ensures { result ≡ next_counter last }
{
    (last % 16 + 1) % 16
}

// Returns true if a packet counts on after one of this PID with this counter.
fn counts_on(packet: &[u8], pid: u16, last: u8) -> bool
    ensures { result ≡ counts_on pid last packet.now }
{
    if byte_at(packet, 0) != 0x47 {
        return false;
    }
    if byte_at(packet, 1) / 128 % 2 == 1 {
        return false;
    }
    if pid_of(packet) != pid {
        return false;
    }
    if byte_at(packet, 3) / 64 % 4 != 0 {
        return false;
    }
    if byte_at(packet, 3) / 16 % 4 != 1 {
        return false;
    }
    byte_at(packet, 3) % 16 == next_counter(last)
}

// Returns true if it goes on with a PES.
fn goes_on(packet: &[u8], pid: u16, last: u8) -> bool
    ensures { result ≡ goes_on pid last packet.now }
{
    if byte_at(packet, 1) / 64 % 2 == 1 {
        return false;
    }
    counts_on(packet, pid, last)
}

// Returns how many packets in a row from this index on count on after one of this PID with this counter.
pub fn count_on(segment: &[u8], from: usize, pid: u16, last: u8) -> usize
    ensures { result ≡ counting_on pid last (drop from (packets segment.now)) }
{
    let left = packets_from(segment, from);
    let mut counter = last;
    for n in 0..left {
        if !counts_on(packet_at(segment, from + n), pid, counter) {
            return n;
        }
        counter = next_counter(counter);
    }
    left
}

// Writes the payload of a packet that has no adaptation field over the front of `out`. The count is fixed, so that the
// compiler copies many bytes at a time.
// Stays: `copy_from_slice` calls memmove, and the library asks for memcpy and memset alone (packaging/README.txt).
fn put_payload(packet: &[u8], out: &mut [u8])
    requires { (length packet.now ≡ packet_length) × (payload_length ≤ length out.old) }
    ensures { out.new ≡ over (drop 4 packet.now) out.old }
{
    for i in 0..PAYLOAD_LENGTH {
        out[i] = packet[HEADER_LENGTH + i];
    }
}

// Writes the payloads of the packets in a row from this index on that go on after one of this PID with this counter
// over the front of `out`, as far as they have room. Returns how many such packets there are.
pub fn follow(segment: &[u8], from: usize, pid: u16, last: u8, out: &mut [u8]) -> usize
    ensures value { result ≡ going_on (length out.old) pid last (drop from (packets segment.now)) }
    ensures out_after { out.new
        ≡ over (payloads result (drop from (packets segment.now))) out.old }
{
    let left = packets_from(segment, from);
    let mut counter = last;
    let mut written: usize = 0;
    for n in 0..left {
        if out.len() - written < PAYLOAD_LENGTH {
            return n;
        }
        let packet = packet_at(segment, from + n);
        if !goes_on(packet, pid, counter) {
            return n;
        }
        put_payload(packet, &mut out[written..]);
        counter = next_counter(counter);
        written += PAYLOAD_LENGTH;
    }
    left
}

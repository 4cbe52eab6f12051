// The header and the adaptation field of one packet.
ghost use Rattle.std.specs.Prelude.{◌≡◌, ◌/◌, Some};
ghost use Rattle.lists.specs.Bytes.{byte};
ghost use Rattle.refusal.specs.Number.{says};
ghost use Rattle.packet.specs.Header.{transport_error_indicator, payload_unit_start_indicator, pid};
ghost use Rattle.packet.specs.Header.{transport_scrambling_control, adaptation_field_control, continuity_counter};
ghost use Rattle.packet.specs.Header.{has_adaptation_field, has_payload, adaptation_field_length, adaptation_flags};
ghost use Rattle.packet.specs.Header.{discontinuity_indicator, pcr_flag, clock_extension, clock_reference, pcr};
ghost use Rattle.packet.specs.Header.{header_length, payload_place, adaptation_length_wrong, pcr_cut_short};
ghost use Rattle.packet.specs.Header.{extension_wrong, fields_wrong, header_wrong, fields, header_of};
ghost use Rattle.packet.specs.Header.{passes, packet_at};
ghost use Rattle.packet.specs.Header.{payload as header_payload};

use lists::{byte_at, part, rest};
use refusal::{Refusal, Refused};
use ticks::Ticks27;

// How many bytes a packet has.
pub const PACKET_LENGTH: usize = 188;

// The PID of null packets.
pub const NULL_PID: u16 = 0x1FFF;

// What a packet says. `payload` is where the payload begins, `None` if there is none.
#[derive(Clone, Copy)]
pub struct Header {
    pub pid: u16,
    pub start: bool,
    pub counter: u8,
    pub discontinuity: bool,
    pub pcr: Option<Ticks27>,
    pub payload: Option<usize>,
}

// The fields of the header.
// Stays: each function takes the packet's bytes alone, so a struct around them would make no function shorter.
fn transport_error_indicator(packet: &[u8]) -> bool
    ensures { result ≡ transport_error_indicator packet.now }
{
    byte_at(packet, 1) / 128 % 2 == 1
}

fn payload_unit_start_indicator(packet: &[u8]) -> bool
    ensures { result ≡ payload_unit_start_indicator packet.now }
{
    byte_at(packet, 1) / 64 % 2 == 1
}

// Returns the PID of a packet.
pub fn pid_of(packet: &[u8]) -> u16
    ensures { result ≡ pid packet.now }
{
    // Stays: with `u16::from_be_bytes` `read` takes 165 instructions a packet of samples/clip.ts, with this 141.
    (byte_at(packet, 1) % 32) as u16 * 256 + byte_at(packet, 2) as u16
}

fn transport_scrambling_control(packet: &[u8]) -> u8
    ensures { result ≡ transport_scrambling_control packet.now }
{
    byte_at(packet, 3) / 64 % 4
}

fn adaptation_field_control(packet: &[u8]) -> u8
    ensures { result ≡ adaptation_field_control packet.now }
{
    byte_at(packet, 3) / 16 % 4
}

fn has_adaptation_field(packet: &[u8]) -> bool
    ensures { result ≡ has_adaptation_field packet.now }
{
    byte_at(packet, 3) / 32 % 2 == 1
}

fn has_payload(packet: &[u8]) -> bool
    ensures { result ≡ has_payload packet.now }
{
    byte_at(packet, 3) / 16 % 2 == 1
}

fn continuity_counter(packet: &[u8]) -> u8
    ensures { result ≡ continuity_counter packet.now }
{
    byte_at(packet, 3) % 16
}

// The fields of the adaptation field.
fn adaptation_field_length(packet: &[u8]) -> u8
    ensures { result ≡ adaptation_field_length packet.now }
{
    byte_at(packet, 4)
}

fn adaptation_flags(packet: &[u8]) -> u8
    ensures { result ≡ adaptation_flags packet.now }
{
    if !has_adaptation_field(packet) || adaptation_field_length(packet) == 0 {
        return 0;
    }
    byte_at(packet, 5)
}

fn discontinuity_indicator(packet: &[u8]) -> bool
    ensures { result ≡ discontinuity_indicator packet.now }
{
    adaptation_flags(packet) / 128 % 2 == 1
}

pub(crate) fn pcr_flag(packet: &[u8]) -> bool
    ensures { result ≡ pcr_flag packet.now }
{
    adaptation_flags(packet) / 16 % 2 == 1
}

fn clock_extension(packet: &[u8]) -> u16
    ensures { result ≡ clock_extension packet.now }
{
    // Stays: with `u16::from_be_bytes` `passes` takes 35.3 instructions a packet, with this 34.6.
    (byte_at(packet, 10) % 2) as u16 * 256 + byte_at(packet, 11) as u16
}

fn clock_reference(packet: &[u8]) -> Ticks27
    ensures { Some result ≡ clock_reference packet.now }
{
    Ticks27::pcr(
        byte_at(packet, 6),
        byte_at(packet, 7),
        byte_at(packet, 8),
        byte_at(packet, 9),
        byte_at(packet, 10),
        byte_at(packet, 11),
    )
}

fn packet_pcr(packet: &[u8]) -> Option<Ticks27>
    ensures { result ≡ pcr packet.now }
{
    if pid_of(packet) == NULL_PID || !pcr_flag(packet) {
        return None;
    }
    Some(clock_reference(packet))
}

// Returns how many bytes the header and the adaptation field take.
fn header_length(packet: &[u8]) -> usize
    ensures { result ≡ header_length packet.now }
{
    if has_adaptation_field(packet) {
        return 5 + adaptation_field_length(packet) as usize;
    }
    4
}

// Returns where the payload begins; `None` if there is none.
fn payload_place(packet: &[u8]) -> Option<usize>
    ensures { result ≡ payload_place packet.now }
{
    if !has_payload(packet) {
        return None;
    }
    Some(header_length(packet))
}

// Returns the payload of a packet; no bytes if there is none.
pub fn payload(packet: &[u8]) -> &[u8]
    ensures { result.now ≡ header_payload packet.now }
{
    if has_payload(packet) {
        return rest(packet, header_length(packet));
    }
    rest(packet, packet.len())
}

// Returns the packet of a segment with this index; no bytes if there is none.
pub fn packet_at(segment: &[u8], index: usize) -> &[u8]
    ensures { result.now ≡ packet_at segment.now index }
{
    let end = segment.len();
    if end / PACKET_LENGTH < index {
        return rest(segment, end);
    }
    part(segment, index * PACKET_LENGTH, PACKET_LENGTH)
}

// Returns whether the length of the adaptation field does not go with the control bits.
fn adaptation_length_wrong(packet: &[u8]) -> bool
    ensures { result ≡ adaptation_length_wrong packet.now }
{
    let length = adaptation_field_length(packet);
    match adaptation_field_control(packet) {
        2 => length != 183,
        3 => 182 < length,
        _ => false,
    }
}

fn pcr_cut_short(packet: &[u8]) -> bool
    ensures { result ≡ pcr_cut_short packet.now }
{
    pcr_flag(packet) && adaptation_field_length(packet) < 7
}

fn extension_wrong(packet: &[u8]) -> bool
    ensures { result ≡ extension_wrong packet.now }
{
    pcr_flag(packet) && 299 < clock_extension(packet)
}

fn fields_wrong(packet: &[u8]) -> bool
    ensures { result ≡ fields_wrong packet.now }
{
    transport_scrambling_control(packet) != 0
        || adaptation_field_control(packet) == 0
        || adaptation_length_wrong(packet)
        || pcr_cut_short(packet)
        || extension_wrong(packet)
}

fn header_wrong(packet: &[u8]) -> bool
    ensures { result ≡ header_wrong packet.now }
{
    pid_of(packet) != NULL_PID && fields_wrong(packet)
}

fn header_fields(packet: &[u8]) -> Header
    ensures { result ≡ fields packet.now }
{
    Header {
        pid: pid_of(packet),
        start: payload_unit_start_indicator(packet),
        counter: continuity_counter(packet),
        discontinuity: discontinuity_indicator(packet),
        pcr: packet_pcr(packet),
        payload: payload_place(packet),
    }
}

// Returns what a packet says that has payload and no adaptation field and is not scrambled: it lies in the first four
// bytes.
fn plain_fields(packet: &[u8]) -> Header
    requires { byte packet.now 3 / 16 ≡ 1 }
    ensures { result ≡ fields packet.now }
{
    Header {
        pid: pid_of(packet),
        start: payload_unit_start_indicator(packet),
        counter: continuity_counter(packet),
        discontinuity: false,
        pcr: None,
        payload: Some(4),
    }
}

// Returns the header of such a packet, of which nothing is wrong by 23. Returns refusal 21 or 22 at place 0.
// Stays: if `read` makes the tests of both in one function, it takes 168 instructions a packet, with this function 141.
fn read_plain(packet: &[u8]) -> Result<Header, Refused>
    requires { byte packet.now 3 / 16 ≡ 1 }
    ensures { says result ≡ header_of packet.now }
{
    if byte_at(packet, 0) != 0x47 {
        return Err(Refusal::SyncByte.at(0));
    }
    if transport_error_indicator(packet) {
        return Err(Refusal::TransportError.at(0));
    }
    Ok(plain_fields(packet))
}

// Returns the header of a packet. Returns refusal 21, 22 or 23 at place 0. Most packets are plain: the byte that says
// so comes first, and no other test of the length is then left.
pub fn read(packet: &[u8]) -> Result<Header, Refused>
    ensures { says result ≡ header_of packet.now }
{
    if byte_at(packet, 3) / 16 == 1 {
        return read_plain(packet);
    }
    if byte_at(packet, 0) != 0x47 {
        return Err(Refusal::SyncByte.at(0));
    }
    if transport_error_indicator(packet) {
        return Err(Refusal::TransportError.at(0));
    }
    if header_wrong(packet) {
        return Err(Refusal::PacketHeader.at(0));
    }
    Ok(header_fields(packet))
}

// Returns whether `read` gives a header; it gives no field.
pub fn passes(packet: &[u8]) -> bool
    ensures { result ≡ passes packet.now }
{
    if byte_at(packet, 0) != 0x47 {
        return false;
    }
    if transport_error_indicator(packet) {
        return false;
    }
    if byte_at(packet, 3) / 16 != 1 {
        return !header_wrong(packet);
    }
    true
}

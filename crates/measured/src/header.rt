// The headers of packets.
ghost use Rattle.std.specs.Prelude.{◌≡◌};
ghost use Rattle.refusal.specs.Number.{says};
ghost use Rattle.packet.specs.Header.{header_of};
ghost use Rattle.measured.specs.Headers.{header_answer, headers_passed};

use packet::{Header, PACKET_LENGTH};
use refusal::Refused;

// number 0: no refusal. pcr_present 0: pcr is 0.
#[repr(C)]
#[derive(Default, Drop)]
pub struct PacketHeader {
    pub number: u64,
    pub place: u64,
    pub pid: u64,
    pub start: bool,
    pub counter: u64,
    pub discontinuity: bool,
    pub pcr_present: bool,
    pub pcr: u64,
    pub has_payload: bool,
    pub payload: u64,
}

// The fields of the header, or the refusal.
impl From<Result<Header, Refused>> for PacketHeader {
    ghost from_gives = { λ read answer. answer ≡ header_answer (says read) };

    fn from(read: Result<Header, Refused>) -> PacketHeader {
        match read {
            Ok(header) => {
                let pid = header.pid as u64;
                PacketHeader {
                    number: 0,
                    place: 0,
                    pid,
                    start: header.start,
                    counter: header.counter as u64,
                    discontinuity: header.discontinuity,
                    pcr_present: header.pcr.is_some(),
                    pcr: header.pcr.map_or(0, |ticks| ticks.0),
                    has_payload: header.payload.is_some(),
                    payload: header.payload.unwrap_or(0) as u64,
                }
            }
            Err(refused) => PacketHeader {
                number: refused.why.number() as u64,
                place: refused.place as u64,
                ..PacketHeader::default()
            },
        }
    }
}

// Returns what one packet says.
#[unsafe(no_mangle)]
pub extern "C" fn measured_header(packet: &[u8]) -> PacketHeader
    ensures { result ≡ header_answer (header_of packet.now) }
{
    packet::read(packet).into()
}

// Returns how many packets of a segment pass; bytes behind the last whole one do not count.
#[unsafe(no_mangle)]
pub extern "C" fn measured_headers(segment: &[u8]) -> u64
    ensures { result ≡ headers_passed segment.now }
{
    let mut count: u64 = 0;
    // Stays: with `chunks_exact` in place of the index, counting took 1.06 of the time (1.22 ns a packet, not 1.15).
    for index in 0..segment.len() / PACKET_LENGTH {
        let at = index * PACKET_LENGTH;
        if packet::passes(&segment[at..at + PACKET_LENGTH]) {
            count += 1;
        }
    }
    count
}

// The header that the payload of a starting packet begins with.
ghost use Rattle.refusal.specs.Number.{says};
ghost use Rattle.std.specs.Prelude.{◌≡◌};
ghost use Rattle.pes.specs.Pes.{times_of, header_of, reading};

use crate::conditions::header_wrong;
use crate::fields::{dts, header_size, no_times, packet_length, pts};
use refusal::{Refusal, Refused};
use ticks::Ticks90;

// The PTS and the DTS of a PES.
#[derive(Clone, Copy)]
pub struct Times {
    pub pts: Ticks90,
    pub dts: Ticks90,
}

// What a header says. `length` is PES_packet_length; `size` is the header's own size, behind which the unit begins;
// `times` is None where PTS_DTS_flags are 00.
#[derive(Clone, Copy)]
pub struct Header {
    pub length: u16,
    pub size: u16,
    pub times: Option<Times>,
}

// Returns the times, None where PTS_DTS_flags are 00.
#[tactic(auto, unfolding(crate::specs::Pes::times_of, lists::specs::Lists::pick))]
fn times_of(payload: &[u8]) -> Option<Times>
    ensures { result ≡ times_of payload.now }
{
    if no_times(payload) {
        return None;
    }
    Some(Times {
        pts: pts(payload),
        dts: dts(payload),
    })
}

// Returns the fields of the header, whether or not it is refused.
fn header_of(payload: &[u8]) -> Header
    ensures { result ≡ header_of payload.now }
{
    Header {
        length: packet_length(payload),
        size: header_size(payload),
        times: times_of(payload),
    }
}

// Returns what the header that the payload begins with says, or refusal 29 if it is wrong.
pub fn read(payload: &[u8]) -> Result<Header, Refused>
    ensures { says result ≡ reading payload.now }
{
    if header_wrong(payload) {
        Err(Refusal::PesHeader.at(0))
    } else {
        Ok(header_of(payload))
    }
}

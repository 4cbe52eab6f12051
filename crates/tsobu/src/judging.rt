// The verdict on one tsOBU, by its payload.
ghost use Rattle.refusal.specs.Number.{says};
ghost use Rattle.std.specs.Prelude.{◌≡◌, true, drop};
ghost use Rattle.emulation.specs.Payload.{legal};
ghost use Rattle.emulation.specs.Payload.{dropped as payload_dropped};
ghost use Rattle.tsobu.specs.StartCodes.{split, code_from};
ghost use Rattle.tsobu.specs.TsObu.{tsobu_figures};
ghost use Rattle.tsobu.specs.Parts.{Short, first_figures, legal_figures};

use crate::start_codes::scan;
use emulation::unescape_prefix;
use lists::part;
use obu::{Header, JUDGED_BYTES, Leb128};
use refusal::{Refusal, Refused};

// The header of a payload's OBU, and the bytes dropped from the payload.
#[derive(Drop)]
pub struct Figures {
    pub header: Header,
    pub dropped: usize,
}

// Where the payload from a place on ends, and the verdict on it.
#[derive(Drop)]
pub struct Found {
    pub end: usize,
    pub tsobu: Result<Figures, Refused>,
}

// Returns the figures of an OBU of `length` bytes, by its first ones, of whose payload `dropped` bytes were dropped, or
// refusal 4, 5, 6 or 42.
fn judge_first(first: &[u8], length: usize, dropped: usize) -> Result<Figures, Refused>
    ensures { says result ≡ first_figures first.now length dropped }
{
    let header = obu::judge(first, length)?;
    Ok(Figures { header, dropped })
}

// Returns the figures of a legal payload that is not empty, of which `dropped` bytes are dropped, or refusal 4, 5, 6 or
// 42.
fn judge_obu(payload: &[u8], dropped: usize) -> Result<Figures, Refused>
    requires { dropped ≡ payload_dropped payload.now }
    ensures { says result ≡ legal_figures payload.now }
{
    let length = payload.len() - dropped;
    if dropped == 0 {
        return judge_first(payload, length, dropped);
    }
    let mut first = [0u8; JUDGED_BYTES];
    let n = unescape_prefix(payload, &mut first);
    judge_first(&first[..n], length, dropped)
}

// Returns the header of a payload's OBU and the bytes dropped, or refusal 3, 10, 4, 5, 6 or 42.
pub fn judge_payload(payload: &[u8]) -> Result<Figures, Refused>
    ensures { says result ≡ tsobu_figures payload.now }
{
    if payload.len() == 0 {
        return Err(Refusal::EmptyObu.at(0));
    }
    let Ok(dropped) = emulation::judge(payload) else {
        return Err(Refusal::IllegalPayload.at(0));
    };
    judge_obu(payload, dropped)
}

// Returns whether the first bytes of the payload show that an OBU of `length` bytes is not refused: it has a header
// without extension, a right size of one byte and content, and is a frame header or of a type above that, but no tile
// list.
fn is_short(payload: &[u8], length: usize) -> bool
    ensures { result ≡ true → Short payload.now length }
{
    if payload.len() < 3 {
        return false;
    }
    let first = payload[0];
    let size = payload[1];
    first / 2 % 4 == 1
        && 24 <= first
        && first < 128
        && first / 8 != 8
        && 0 < size
        && size < 128
        && size as usize + 2 == length
}

// Returns the figures of a legal payload that is not empty, of which `dropped` bytes are dropped, or refusal 4, 5, 6 or
// 42. Of most small OBUs the first three bytes, in which nothing is dropped, say all.
fn judge_lawful(payload: &[u8], dropped: usize) -> Result<Figures, Refused>
    requires { dropped ≡ payload_dropped payload.now }
    ensures { says result ≡ legal_figures payload.now }
{
    if is_short(payload, payload.len() - dropped) {
        let header = Header {
            obu_type: payload[0] / 8,
            extension: false,
            size: Some(Leb128 {
                value: payload[1] as u64,
                width: 1,
            }),
            content: 2,
            first_content: payload[2],
        };
        return Ok(Figures { header, dropped });
    }
    judge_obu(payload, dropped)
}

// Returns the figures of a payload, which is legal or not, and of which `dropped` bytes are dropped if it is, or
// refusal 3, 10, 4, 5, 6 or 42.
fn judge_scanned(payload: &[u8], lawful: bool, dropped: usize) -> Result<Figures, Refused>
    requires { (lawful ≡ legal payload.now) × (lawful ≡ true → dropped ≡ payload_dropped payload.now) }
    ensures { says result ≡ tsobu_figures payload.now }
{
    if payload.len() == 0 {
        return Err(Refusal::EmptyObu.at(0));
    }
    if !lawful {
        return Err(Refusal::IllegalPayload.at(0));
    }
    judge_lawful(payload, dropped)
}

// Returns where the payload from `start` on ends, which is at the next start code or at the end of `s`, and its figures
// or refusal 3, 10, 4, 5, 6 or 42, in one pass over its bytes.
pub fn judge_from(s: &[u8], start: usize) -> Found
    ensures end_value { result.end ≡ code_from s.now start }
    ensures tsobu_value { says result.tsobu ≡ tsobu_figures (split (drop start s.now)).before }
{
    let scanned = scan(s, start);
    let end = scanned.end;
    let payload = part(s, start, end - start);
    let tsobu = judge_scanned(payload, scanned.legal, scanned.dropped);
    Found { end, tsobu }
}

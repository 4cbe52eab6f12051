// The sequence headers of carried units beside a descriptor's fields (document 02, request 2026-04).
#![tactic(auto)]

ghost use Rattle.std.specs.Prelude.{◌≡◌, map, take, drop};
ghost use Rattle.emulation.specs.Payload.{unescape};
ghost use Rattle.obu.specs.Header.{header_of};
ghost use Rattle.sequence.specs.Comparison.{comparing};
ghost use Rattle.unit.specs.Unit.{obus_of};
ghost use Rattle.comparison.specs.Comparison.{sequence_content, frame_type, headers_before_frame, field_of};
ghost use Rattle.comparison.specs.Comparison.{first_of, first_from};

use descriptor::Fields;
use lists::byte_at;
use obu::JUDGED_BYTES;

// The unit of the first header that disagrees, from 0, and its first differing field, seq_profile being 0, or 43.
#[derive(Clone, Copy)]
pub struct Disagreement {
    pub unit: usize,
    pub field: u8,
}

// Compares the header whose content begins at byte `at` of what `payload` unescapes to. Returns the first differing
// field, or 43 if the header is cut short.
fn compare_content(payload: &[u8], at: usize, fields: Fields) -> Option<u8>
    ensures { result ≡ field_of (comparing (drop at (unescape payload.now)) fields) }
{
    match sequence::compare(payload, at, fields) {
        Ok(difference) => difference,
        Err(refused) => Some(refused.why.number()),
    }
}

// Compares the OBU of a payload if it is a sequence header. Returns what `compare_content` returns.
fn compare_obu(payload: &[u8], fields: Fields) -> Option<u8>
    ensures { result ≡ first_of fields
        (sequence_content (header_of (unescape payload.now)) (unescape payload.now)) }
{
    let mut first = [0u8; JUDGED_BYTES];
    let n = emulation::unescape_prefix(payload, &mut first);
    let read = obu::read_header(&first[..n]);
    match read {
        Err(_) => None,
        Ok(header) => {
            if header.obu_type != 1 {
                return None;
            }
            compare_content(payload, header.content, fields)
        }
    }
}

// Returns whether an OBU with this first byte has type 3 or 6.
pub fn is_frame(first: u8) -> bool
    ensures { result ≡ frame_type first }
{
    let kind = first / 8 % 16;
    kind == 3 || kind == 6
}

// Compares the sequence headers of a carried unit before its frame, in order, whether or not reading accepts the unit:
// the frame's bytes are not looked at. Returns the first differing field of the first header that disagrees, or 43.
fn compare_unit(unit: &[u8], fields: Fields) -> Option<u8>
    ensures { result ≡ first_of fields (headers_before_frame unit.now) }
{
    let mut code = tsobu::find(unit, 0);
    // Stays: `Payloads` searches the frame, too: before one of 100,000 bytes 56,062 instructions, with this 1,049.
    while code < unit.len() {
        let start = code + 3;
        if is_frame(byte_at(unit, start)) {
            return None;
        }
        let end = tsobu::find(unit, start);
        if let Some(field) = compare_obu(&unit[start..end], fields) {
            return Some(field);
        }
        code = end;
    }
    None
}

// Compares the sequence headers before the frames of the first `count` carried units, which stand back to back and have
// these lengths. Returns the first disagreement.
pub fn compare_units(
    bytes: &[u8],
    lens: &[usize],
    count: usize,
    fields: Fields,
) -> Option<Disagreement>
    ensures { result
        ≡ first_from 0 fields (map headers_before_frame (obus_of (take count lens.now) bytes.now)) }
{
    let lens = &lens[..count.min(lens.len())];
    let mut at: usize = 0;
    for (index, len) in lens.iter().enumerate() {
        let unit = lists::part(bytes, at, *len);
        if let Some(field) = compare_unit(unit, fields) {
            return Some(Disagreement { unit: index, field });
        }
        at += unit.len();
    }
    None
}

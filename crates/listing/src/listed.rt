// The text for a whole unit.
ghost use Rattle.refusal.specs.Number.{says};
ghost use Rattle.std.specs.Prelude.{◌+◌, ◌≤◌, ◌≡◌, ◌++◌, [], length};
ghost use Rattle.refusal.specs.Verdict.{leaves};
ghost use Rattle.tsobu.specs.StartCodes.{payloads};
ghost use Rattle.listing.specs.Listing.{payload_lines, list_text, most_text, listing};
ghost use Rattle.listing.specs.Parts.{Accepts, obus_room};

use crate::lines::{put_header, put_payload, put_refusal};
use crate::text::Text;
use lists::copy;
use refusal::{Refusal, Refused};
use tsobu::Walk;

// The most bytes of a unit that is listed.
const MOST_LISTED: usize = 65536;

// Puts the lines of the OBUs of an accepted unit, one for each step of a walk over it.
fn put_obus(text: &mut Text, unit: &[u8])
    requires { Accepts unit.now × (length text.old + obus_room ≤ most_text) }
    ensures puts { text.new ≡ text.old ++ payload_lines 0 (payloads unit.now) }
    ensures upper_bound { length text.new ≤ length text.old + obus_room }
{
    let mut walk = Walk::new(unit);
    let mut index: usize = 0;
    // Stays: document 01 names the form: let .. else takes each step apart, and leaves at the end or a refusal.
    loop {
        let handed = walk.step();
        let Ok(step) = handed.step else {
            return;
        };
        let Some(_) = step else {
            return;
        };
        put_payload(text, index, handed.payload);
        index += 1;
    }
}

// Puts the text for a unit into an empty text.
fn put_text(text: &mut Text, unit: &[u8])
    requires { text.old ≡ [] }
    ensures puts { text.new ≡ list_text unit.now }
    ensures upper_bound { length text.new ≤ most_text }
{
    if MOST_LISTED < unit.len() {
        put_refusal(text, Refusal::Length.at(0));
        return;
    }
    match unit::check(unit) {
        Err(refused) => put_refusal(text, refused),
        Ok(counts) => {
            put_header(text, counts.obus, counts.dropped);
            put_obus(text, unit);
        }
    }
}

// Writes the text for a unit over the front of `out`, and returns how many bytes that is, or refusal 8 if `out` is too
// short, which it is not if it has room for the longest text; `out` is then left unchanged.
pub fn list(unit: &[u8], out: &mut [u8]) -> Result<usize, Refused>
    ensures result_value { says result ≡ listing unit.now (length out.old) }
    ensures out_after { out.new ≡ leaves (says result) (list_text unit.now) out.old }
    ensures unit_len_bound { length (list_text unit.now) ≤ most_text }
{
    let mut text = Text::new();
    put_text(&mut text, unit);
    let bytes = text.bytes();
    if out.len() < bytes.len() {
        return Err(Refusal::NoRoom.at(0));
    }
    copy(bytes, out);
    Ok(bytes.len())
}

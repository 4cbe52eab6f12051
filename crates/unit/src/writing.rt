// Writing one access unit.
ghost use Rattle.std.specs.Prelude.{◌≡◌, ◌+◌, ◌≤◌, ◌∷◌, eqb, leb, length};
ghost use Rattle.lists.specs.Lists.{over};
ghost use Rattle.refusal.specs.Verdict.{leaves};
ghost use Rattle.refusal.specs.Number.{says};
ghost use Rattle.emulation.specs.Payload.{escape};
ghost use Rattle.emulation.specs.Answer.{most_escaped};
ghost use Rattle.unit.specs.Unit.{most_obus, most_obu_bytes, sum, obus_of, write_refusal, carried, write_unit};
ghost use Rattle.unit.specs.Demand3.{Demand3Lent};

use crate::limits::{MOST_OBU_BYTES, MOST_OBUS};
use escaping::{escape_prefix, escaped_length};
use obu::{Kind, judge, kind_of, order_kinds};
use refusal::{Refusal, Refused};

// Stays: `write` has the OBUs and their lengths from C as two slices; of a struct each contract would name both fields.

// Returns whether the lengths add up to `n`. Each is taken from what is left of `n`, so that no sum can wrap.
fn adds_up(lens: &[usize], n: usize) -> bool
    ensures { result ≡ eqb (sum lens.now) n }
{
    let mut left = n;
    for length in lens {
        if left < *length {
            return false;
        }
        left -= *length;
    }
    left == 0
}

// Judges each OBU in turn, then their order. Returns refusal 3, 4, 5, 6 or 42 at the OBU's index, then 7.
fn judge_obus(obus: &[u8], lens: &[usize]) -> Result<(), Refused>
    requires { (1 ≤ length lens.now) × (length lens.now ≤ most_obus) × (length obus.now ≤ most_obu_bytes)
        × (sum lens.now ≡ length obus.now) }
    ensures { says result ≡ write_refusal lens.now obus.now }
{
    let mut kinds = [Kind::Reserved; MOST_OBUS];
    let mut at: usize = 0;
    for (i, length) in lens.iter().enumerate() {
        let end = at + *length;
        let header = judge(&obus[at..end], *length).map_err(|refused| refused.why.at(i))?;
        kinds[i] = kind_of(header);
        at = end;
    }
    order_kinds(&kinds[..lens.len()])
}

// Returns how many bytes the escaped form of an OBU has, which is within the limit of escaping.
fn escaped_bytes(obu: &[u8]) -> usize
    requires { length obu.now ≤ most_escaped }
    ensures { result ≡ length (escape obu.now) }
{
    escaped_length(obu).unwrap_or(0) // 0 is not reached
}

// Returns how many bytes the carried unit has.
fn carried_length(obus: &[u8], lens: &[usize]) -> usize
    requires { (length lens.now ≤ most_obus) × (length obus.now ≤ most_obu_bytes)
        × (sum lens.now ≡ length obus.now) }
    ensures { result ≡ length (carried (obus_of lens.now obus.now)) }
{
    let mut n: usize = 0;
    let mut at: usize = 0;
    for length in lens {
        let end = at + *length;
        n += 3 + escaped_bytes(&obus[at..end]);
        at = end;
    }
    n
}

// Returns whether the carried unit has at most `room` bytes. Each 03 takes two zeros before it, so that with room for
// half as many bytes more nothing has to be counted.
fn has_room(obus: &[u8], lens: &[usize], room: usize) -> bool
    requires { (length lens.now ≤ most_obus) × (length obus.now ≤ most_obu_bytes)
        × (sum lens.now ≡ length obus.now) }
    ensures { result ≡ leb (length (carried (obus_of lens.now obus.now))) room }
{
    if 3 * lens.len() + obus.len() + obus.len() / 2 <= room {
        return true;
    }
    carried_length(obus, lens) <= room
}

// Writes a start code and the escaped OBU over the front of `out`, and returns how many bytes that is.
fn write_obu(obu: &[u8], out: &mut [u8]) -> usize
    requires { 3 + length (escape obu.now) ≤ length out.old }
    ensures value { result ≡ 3 + length (escape obu.now) }
    ensures out_after { out.new ≡ over (0 ∷ 0 ∷ 1 ∷ escape obu.now) out.old }
{
    out[0] = 0;
    out[1] = 0;
    out[2] = 1;
    3 + escape_prefix(obu, &mut out[3..])
}

// Writes the carried unit over the front of `out`, and returns how many bytes that is.
fn write_obus(obus: &[u8], lens: &[usize], out: &mut [u8]) -> usize
    requires { (sum lens.now ≡ length obus.now)
        × (length (carried (obus_of lens.now obus.now)) ≤ length out.old) }
    ensures value { result ≡ length (carried (obus_of lens.now obus.now)) }
    ensures out_after { out.new
        ≡ over (carried (obus_of lens.now obus.now)) out.old }
{
    let mut n: usize = 0;
    let mut at: usize = 0;
    for bytes in lens {
        let end = at + *bytes;
        n += write_obu(&obus[at..end], &mut out[n..]);
        at = end;
    }
    n
}

// Writes the carried unit of the OBUs that stand back to back in `obus` over the front of `out`, and returns how many
// bytes that is, or refusal 1, 2, for each OBU 3, 4, 5, 6, 42, then 7, then 8; `out` is then left unchanged.
pub fn write(obus: &[u8], lens: &[usize], out: &mut [u8]) -> Result<usize, Refused>
    ensures result_value { says result ≡ write_unit lens.now obus.now (length out.old) }
    ensures out_after { out.new
        ≡ leaves (says result) (carried (obus_of lens.now obus.now)) out.old }
    ensures demand3lent { Demand3Lent lens.now obus.now out.old (says result)
        out.new }
{
    if lens.len() == 0 {
        return Err(Refusal::ObuCount.at(0));
    }
    if MOST_OBUS < lens.len() {
        return Err(Refusal::ObuCount.at(0));
    }
    if MOST_OBU_BYTES < obus.len() {
        return Err(Refusal::Length.at(0));
    }
    if !adds_up(lens, obus.len()) {
        return Err(Refusal::Length.at(0));
    }
    judge_obus(obus, lens)?;
    if !has_room(obus, lens, out.len()) {
        return Err(Refusal::NoRoom.at(0));
    }
    Ok(write_obus(obus, lens, out))
}

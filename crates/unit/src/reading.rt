// Reading and checking a carried unit.
ghost use Rattle.std.specs.Prelude.{◌≡◌, true, ◌+◌, ◌≤◌, ltb, length, drop};
ghost use mathlib.Core.List.{map, flatten};
ghost use Rattle.lists.specs.Lists.{over};
ghost use Rattle.refusal.specs.Number.{says};
ghost use Rattle.emulation.specs.Payload.{unescape};
ghost use Rattle.emulation.specs.Payload.{dropped as payload_dropped};
ghost use Rattle.tsobu.specs.StartCodes.{at_start_code, payloads};
ghost use Rattle.unit.specs.Unit.{most_obus, obus_in};
ghost use Rattle.unit.specs.Answer.{checking, too_short, ReadsUnit};
ghost use Rattle.unit.specs.Parts.{Judges, whole_counts, Notes, Measured};

use crate::limits::{MOST_CARRIED, MOST_OBU_BYTES, MOST_OBUS};
use emulation::unescape_prefix;
use lists::copy;
use obu::{Kind, kind_of, size_bytes};
use refusal::{Refusal, Refused};
use tsobu::{Payloads, at_start_code, judge_from};

// How many OBUs a unit has, their bytes together, and the bytes dropped in all.
#[derive(Clone, Copy)]
pub struct Counts {
    pub obus: usize,
    pub bytes: usize,
    pub dropped: usize,
}

// What is noted of a payload that passed: where it ends, and how many bytes the size of its OBU takes.
#[derive(Clone, Copy)]
struct Note {
    end: usize,
    width: usize,
}

// Returns whether there are more than 64 payloads, of which `before` stand before `at`.
fn too_many(unit: &[u8], at: usize, before: usize) -> bool
    requires { (at ≤ length unit.now) × (before ≤ most_obus) }
    ensures { result ≡ ltb most_obus (before + length (payloads (drop at unit.now))) }
{
    let mut behind = Payloads::of(&unit[at..]);
    for _ in before..MOST_OBUS {
        if behind.next().is_none() {
            return false;
        }
    }
    // The end of a 65th payload is not searched: the rest of the unit may be its bytes.
    !behind.is_empty()
}

// Judges the payloads in turn, and writes of each the kind of its OBU over the front of `kinds` and its note over the
// front of `notes`. Returns refusal 1, or 3, 10, 4, 5, 6 or 42 at the payload's index.
// Stays: the kinds stand beside the notes, since `obu::order_kinds` reads a slice of kinds. Both are arrays: there is
// no heap, and a unit has at most 64 OBUs.
fn judge_payloads(
    unit: &[u8],
    kinds: &mut [Kind; MOST_OBUS],
    notes: &mut [Note; MOST_OBUS],
) -> Result<Counts, Refused>
    requires { (at_start_code unit.now ≡ true) × (length kinds.old ≡ 64) × (length notes.old ≡ 64) }
    ensures { Judges unit.now result kinds.new notes.new }
{
    let mut bytes: usize = 0;
    let mut dropped: usize = 0;
    let mut code: usize = 0;
    let mut count: usize = 0;
    // Stays: `judge_from` finds the end in the pass that judges; `Payloads` would search each end once more.
    while code < unit.len() {
        if MOST_OBUS <= count {
            return Err(Refusal::ObuCount.at(0));
        }
        let start = code + 3;
        let found = judge_from(unit, start);
        let end = found.end;
        match found.tsobu {
            Err(refused) => {
                if too_many(unit, end, count + 1) {
                    return Err(Refusal::ObuCount.at(0));
                }
                return Err(refused.why.at(count));
            }
            Ok(figures) => {
                kinds[count] = kind_of(figures.header);
                notes[count] = Note {
                    end,
                    width: size_bytes(figures.header.size),
                };
                bytes += end - start - figures.dropped;
                dropped += figures.dropped;
                code = end;
                count += 1;
            }
        }
    }
    Ok(Counts {
        obus: count,
        bytes,
        dropped,
    })
}

// Returns the counts of payloads that passed, whose OBUs have these kinds, or refusal 2 for the OBUs' sum, or 7.
fn judge_whole(counts: Counts, kinds: &[Kind]) -> Result<Counts, Refused>
    requires { counts.obus ≤ length kinds.now }
    ensures { says result ≡ whole_counts counts kinds.now }
{
    if MOST_OBU_BYTES < counts.bytes {
        return Err(Refusal::Length.at(0));
    }
    obu::order_kinds(&kinds[..counts.obus])?;
    Ok(counts)
}

// Returns the counts of a unit that reading accepts, and writes the notes of its payloads over the front of `notes`.
// Returns refusal 2 for the carried length; 9; 1; that of a payload; 2 for the OBUs' sum; 7.
fn judge_unit(unit: &[u8], notes: &mut [Note; MOST_OBUS]) -> Result<Counts, Refused>
    requires { length notes.old ≡ 64 }
    ensures result_value { says result ≡ checking unit.now }
    ensures notes { Notes unit.now notes.new }
{
    if MOST_CARRIED < unit.len() {
        return Err(Refusal::Length.at(0));
    }
    if !at_start_code(unit) {
        return Err(Refusal::NoStartCode.at(0));
    }
    let mut kinds = [Kind::Reserved; MOST_OBUS];
    let counts = judge_payloads(unit, &mut kinds, notes)?;
    judge_whole(counts, &kinds)
}

// Returns the counts of a unit that reading accepts, or the refusal.
pub fn check(unit: &[u8]) -> Result<Counts, Refused>
    ensures { says result ≡ checking unit.now }
{
    let mut notes = [Note { end: 0, width: 0 }; MOST_OBUS];
    judge_unit(unit, &mut notes)
}

// Writes the OBU of a payload over the front of `out`, and returns its length. If `dropped` is 0, nothing is dropped of
// the payload.
fn copy_obu(payload: &[u8], dropped: usize, out: &mut [u8]) -> usize
    requires { (dropped ≡ 0 → payload_dropped payload.now ≡ 0)
        × (length (unescape payload.now) ≤ length out.old) }
    ensures value { result ≡ length (unescape payload.now) }
    ensures out_after { out.new ≡ over (unescape payload.now) out.old }
{
    if dropped == 0 {
        copy(payload, out);
        return payload.len();
    }
    unescape_prefix(payload, out)
}

// Writes the OBUs of a unit, whose payloads have these notes and drop `dropped` bytes in all, back to back over the
// front of `out`, and their lengths over the front of `lens`.
fn copy_obus(
    unit: &[u8],
    count: usize,
    dropped: usize,
    notes: &[Note; MOST_OBUS],
    out: &mut [u8],
    lens: &mut [usize],
)
    requires measured { Measured unit.now count dropped notes.now }
    requires unit_in_bounds { (length (flatten (obus_in unit.now)) ≤ length out.old) × (count ≤ length lens.old) }
    ensures out_after { out.new ≡ over (flatten (obus_in unit.now)) out.old }
    ensures lens_after { lens.new ≡ over (map length (obus_in unit.now)) lens.old }
{
    let mut code: usize = 0;
    let mut n: usize = 0;
    for k in 0..count {
        let start = code + 3;
        let end = notes[k].end;
        let written = copy_obu(&unit[start..end], dropped, &mut out[n..]);
        lens[k] = written;
        n += written;
        code = end;
    }
}

// Returns whether outputs of `bytes` bytes, `lengths` lengths and `widths` widths are too short for a unit with these
// counts.
// Stays: the three are asked once, here; a struct of them would be made at the one call and taken apart again.
fn no_room(counts: Counts, bytes: usize, lengths: usize, widths: usize) -> bool
    ensures { result ≡ too_short counts bytes lengths widths }
{
    bytes < counts.bytes || lengths < counts.obus || widths < counts.obus
}

// Writes the OBUs of a unit over the front of `out`, their lengths over the front of `lens`, and how many bytes the
// size of each takes, 0 if no size is present, over the front of `widths`. Returns the counts, or the refusal, of which
// 8 comes last; the outputs are then left unchanged.
pub fn read(
    unit: &[u8],
    out: &mut [u8],
    lens: &mut [usize],
    widths: &mut [usize],
) -> Result<Counts, Refused>
    ensures { ReadsUnit unit.now out.old lens.old widths.old result
        out.new lens.new widths.new }
{
    let mut notes = [Note { end: 0, width: 0 }; MOST_OBUS];
    let counts = judge_unit(unit, &mut notes)?;
    if no_room(counts, out.len(), lens.len(), widths.len()) {
        return Err(Refusal::NoRoom.at(0));
    }
    copy_obus(unit, counts.obus, counts.dropped, &notes, out, lens);
    for i in 0..counts.obus {
        widths[i] = notes[i].width;
    }
    Ok(counts)
}

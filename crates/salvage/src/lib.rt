// Salvaging a damaged unit (document 02, request 2026-10). The writer's form of a legal payload is the payload without
// its closing 03, so that what is kept is only copied.
#![tactic(auto)]

ghost use Rattle.std.specs.Prelude.{◌≡◌, map, ◌≤◌, length};
ghost use Rattle.lists.specs.Lists.{over};
ghost use Rattle.refusal.specs.Verdict.{leaves};
ghost use Rattle.refusal.specs.Number.{number_of, says};
ghost use Rattle.obu.specs.Table.{kind_meant};
ghost use Rattle.tsobu.specs.StartCodes.{payloads};
ghost use Rattle.salvage.specs.Salvage.{closes as salvage_closes, mark as salvage_mark};
ghost use Rattle.salvage.specs.Salvage.{marks as salvage_marks, salvaged, salvaging};
ghost use Rattle.salvage.specs.Parts.{form, forms, dropped_one, kept_one, OneOf, added, HasRoom};
ghost use Rattle.salvage.specs.Parts.{Measures, Ready, acceptable};

use lists::copy;
use obu::Kind;
use refusal::{Refusal, Refused};
use tsobu::Payloads;
use unit::{MOST_CARRIED, MOST_OBU_BYTES, MOST_OBUS};

// The bytes of the result, the tsOBUs of the input, how many of them were kept, the leading bytes dropped, and whether
// reading accepts the result.
#[derive(Drop)]
pub struct Figures {
    pub bytes: usize,
    pub tsobus: usize,
    pub kept: usize,
    pub leading: usize,
    pub accepted: bool,
}

// The kind and the bytes of an OBU that is kept.
#[derive(Clone, Copy, Drop)]
struct Kept {
    kind: Kind,
    size: usize,
}

// A tsOBU's mark, how many bytes it gives to the result, and its OBU if it is kept.
#[derive(Drop)]
struct One {
    mark: u8,
    bytes: usize,
    kept: Option<Kept>,
}

// The tsOBUs of a string: their count and marks, and the bytes of the result; and of what is kept the count, the kinds
// of the OBUs and their bytes.
#[derive(Clone, Copy)]
struct Measured {
    count: usize,
    bytes: usize,
    // Stays: the marks and the kinds are arrays, since there is no heap, and a unit has at most 64 OBUs.
    marks: [u8; MOST_OBUS],
    kept: usize,
    kinds: [Kind; MOST_OBUS],
    size: usize,
}

impl Measured {
    // Adds a tsOBU, for which there is room.
    fn add(&mut self, one: One)
        requires { HasRoom self.old one }
        ensures { self.new ≡ added self.old one }
    {
        self.marks[self.count] = one.mark;
        self.count += 1;
        self.bytes += one.bytes;
        if let Some(obu) = one.kept {
            self.kinds[self.kept] = obu.kind;
            self.kept += 1;
            self.size += obu.size;
        }
    }
}

// Returns whether a payload ends in 00 00 03.
fn closes(payload: &[u8]) -> bool
    ensures { result ≡ salvage_closes payload.now }
{
    payload.ends_with(&[0, 0, 3])
}

// Returns a tsOBU that is dropped with the number of this refusal.
fn drop_one(why: Refusal) -> One
    ensures { result ≡ dropped_one (number_of why) }
{
    One {
        mark: why.number(),
        bytes: 0,
        kept: None,
    }
}

// Returns a tsOBU that is kept, with this payload, whose OBU has this kind and `size` bytes.
fn keep_one(payload: &[u8], kind: Kind, size: usize) -> One
    ensures { result ≡ kept_one payload.now kind size }
{
    let kept = Some(Kept { kind, size });
    if closes(payload) {
        return One {
            mark: 1,
            bytes: payload.len() + 2,
            kept,
        };
    }
    One {
        mark: 0,
        bytes: payload.len() + 3,
        kept,
    }
}

// Judges one tsOBU by its payload: it is dropped with 3, 10, 4, 5, 6 or 42, then with 2, or kept.
fn judge_one(payload: &[u8]) -> One
    ensures { OneOf payload.now result }
{
    match tsobu::judge_payload(payload) {
        Err(refused) => drop_one(refused.why),
        Ok(figures) => {
            let size = payload.len() - figures.dropped;
            if MOST_OBU_BYTES < size {
                return drop_one(Refusal::Length);
            }
            keep_one(payload, obu::kind_of(figures.header), size)
        }
    }
}

// Writes what a tsOBU gives over the front of an output, and returns how many bytes that is.
fn write_one(payload: &[u8], out: &mut [u8]) -> usize
    requires { length (form payload.now) ≤ length out.old }
    ensures value { result ≡ length (form payload.now) }
    ensures out_after { out.new ≡ over (form payload.now) out.old }
{
    let one = judge_one(payload);
    let bytes = one.bytes;
    if bytes == 0 {
        return 0;
    }
    out[0] = 0;
    out[1] = 0;
    out[2] = 1;
    let end = bytes - 3;
    copy(&payload[..end], &mut out[3..]);
    bytes
}

// Measures the tsOBUs of any string. Returns `None` if there are more than 64.
fn measure(s: &[u8]) -> Option<Measured>
    ensures { Measures s.now result }
{
    let mut measured = Measured {
        count: 0,
        bytes: 0,
        marks: [0; MOST_OBUS],
        kept: 0,
        kinds: [Kind::Reserved; MOST_OBUS],
        size: 0,
    };
    let mut payloads = Payloads::of(s);
    while let Some(payload) = payloads.next() {
        measured.add(judge_one(payload));
        // The end of a 65th payload is not searched: the rest of the string may be its bytes.
        if MOST_OBUS <= measured.count && !payloads.is_empty() {
            return None;
        }
    }
    Some(measured)
}

// Writes the result over the front of `out`.
fn write_kept(body: &[u8], out: &mut [u8])
    requires { length (forms (payloads body.now)) ≤ length out.old }
    ensures { out.new ≡ over (forms (payloads body.now)) out.old }
{
    let mut n: usize = 0;
    for payload in Payloads::of(body) {
        n += write_one(payload, &mut out[n..]);
    }
}

// Returns whether reading accepts the writer's string of OBUs that pass, of `bytes` bytes together and of these kinds.
fn is_accepted(bytes: usize, kinds: &[Kind]) -> bool
    ensures { result ≡ acceptable (length kinds.now) bytes (map kind_meant kinds.now) }
{
    if kinds.len() == 0 {
        return false;
    }
    bytes <= MOST_OBU_BYTES && obu::order_kinds(kinds).is_ok()
}

// Writes the result over the front of `out` and the marks over the front of `marks`, which have room.
fn put(body: &[u8], measured: Measured, out: &mut [u8], marks: &mut [u8])
    requires { Ready body.now measured out.old marks.old }
    ensures out_after { out.new ≡ over (forms (payloads body.now)) out.old }
    ensures marks_after { marks.new
        ≡ over (map salvage_mark (payloads body.now)) marks.old }
{
    write_kept(body, out);
    copy(&measured.marks[..measured.count], marks);
}

// Writes the good tsOBUs of a unit, each in the writer's form, over the front of `out`, and a mark for each original
// one over the front of `marks`: 0 kept, 1 kept with a closing 03 removed, or the number that it was dropped with.
// Returns the figures, or refusal 2 for the carried length, 1 for more than 64 tsOBUs, or 8; both outputs are then left
// unchanged.
pub fn salvage(unit: &[u8], out: &mut [u8], marks: &mut [u8]) -> Result<Figures, Refused>
    ensures result_value { says result
        ≡ salvaging unit.now (length out.old) (length marks.old) }
    ensures out_after { out.new ≡ leaves (says result) (salvaged unit.now) out.old }
    ensures marks_after { marks.new
        ≡ leaves (says result) (salvage_marks unit.now) marks.old }
{
    if MOST_CARRIED < unit.len() {
        return Err(Refusal::Length.at(0));
    }
    let leading = tsobu::find(unit, 0);
    let body = lists::rest(unit, leading);
    let Some(measured) = measure(body) else {
        return Err(Refusal::ObuCount.at(0));
    };
    if out.len() < measured.bytes {
        return Err(Refusal::NoRoom.at(0));
    }
    if marks.len() < measured.count {
        return Err(Refusal::NoRoom.at(0));
    }
    put(body, measured, out, marks);
    let accepted = is_accepted(measured.size, &measured.kinds[..measured.kept]);
    Ok(Figures {
        bytes: measured.bytes,
        tsobus: measured.count,
        kept: measured.kept,
        leading, // dropped
        accepted,
    })
}

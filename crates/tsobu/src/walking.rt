// A walk over a carried unit: the state is the place of the next step.
ghost use Rattle.refusal.specs.Number.{says};
ghost use Rattle.std.specs.Prelude.{◌≡◌, true, ◌≤◌, length, drop};
ghost use Rattle.tsobu.specs.StartCodes.{at_start_code};
ghost use Rattle.tsobu.specs.Walk.{starting, obu_index, payload_step, at_end, stepping};
ghost use Rattle.tsobu.specs.Walk.{place_after_step, place_after, handed_out, step_says};

use crate::start_codes::{code_at, scan};
use lists::part;
use refusal::{Refusal, Refused};

// Where a payload begins in the unit, how many bytes it has, and the place of the next step.
#[derive(Clone, Copy)]
pub struct Part {
    pub start: usize,
    pub bytes: usize,
    pub next: usize,
}

// A step, and the place after it.
#[derive(Drop)]
pub(crate) struct Stepped {
    pub(crate) step: Result<Option<Part>, Refused>,
    pub(crate) at: usize,
}

// Returns the place of the first step, or refusal 9 if no start code stands there.
pub fn start(unit: &[u8]) -> Result<usize, Refused>
    ensures { says result ≡ starting unit.now }
{
    if code_at(unit, 0) {
        return Ok(0);
    }
    Err(Refusal::NoStartCode.at(0))
}

// Returns how many start codes stand before at.
fn obu_index(unit: &[u8], at: usize) -> usize
    requires { at ≤ length unit.now }
    ensures { result ≡ obu_index unit.now at }
{
    let mut count: usize = 0;
    for i in 0..at {
        count += code_at(unit, i) as usize;
    }
    count
}

// Returns this refusal, whose place is the OBU index of `at`.
fn refused(unit: &[u8], at: usize, why: Refusal) -> Refused
    requires { at ≤ length unit.now }
    ensures { result ≡ record { why = why; place = obu_index unit.now at } }
{
    why.at(obu_index(unit, at))
}

// Returns the step at the start code at `at`, or refusal 3 or 10.
fn payload_step(unit: &[u8], at: usize) -> Result<Option<Part>, Refused>
    requires { at_start_code (drop at unit.now) ≡ true }
    ensures { step_says result ≡ payload_step unit.now at }
{
    let start = at + 3;
    let scanned = scan(unit, start);
    let next = scanned.end;
    if next == start {
        return Err(refused(unit, at, Refusal::EmptyObu));
    }
    if !scanned.legal {
        return Err(refused(unit, at, Refusal::IllegalPayload));
    }
    Ok(Some(Part {
        start,
        bytes: next - start,
        next,
    }))
}

// Returns whether a walk is at its end at `at`: from the unit's length on, but not at 0.
fn at_end(unit: &[u8], at: usize) -> bool
    ensures { result ≡ at_end unit.now at }
{
    if at == 0 {
        return false;
    }
    unit.len() <= at
}

// Returns the step at a place: the payload there, `None` at the end, or refusal 9, 3 or 10, at which the walk stays.
pub fn step_at(unit: &[u8], at: usize) -> Result<Option<Part>, Refused>
    ensures { step_says result ≡ stepping unit.now at }
{
    if at_end(unit, at) {
        return Ok(None);
    }
    if code_at(unit, at) {
        return payload_step(unit, at);
    }
    Err(Refusal::NoStartCode.at(0))
}

// Returns the place after a step at `at`: the next one if it handed out a payload, `at` at the end and at a refusal.
fn place_after(step: Result<Option<Part>, Refused>, at: usize) -> usize
    ensures { result ≡ place_after_step at (step_says step) }
{
    match step {
        Ok(Some(part)) => part.next,
        Ok(None) => at,
        Err(_) => at,
    }
}

// Returns the step at a place, and the place after it; the step refuses with 9, 3 or 10.
pub(crate) fn step_on(unit: &[u8], at: usize) -> Stepped
    ensures step_value { step_says result.step ≡ stepping unit.now at }
    ensures at_value { result.at ≡ place_after unit.now at }
{
    let step = step_at(unit, at);
    Stepped {
        step,
        at: place_after(step, at),
    }
}

// Returns the payload that a step handed out, as a part of the unit; an empty part if it handed out none.
pub fn payload(unit: &[u8], step: Result<Option<Part>, Refused>) -> &[u8]
    ensures { result.now ≡ handed_out unit.now (step_says step) }
{
    match step {
        Ok(Some(p)) => part(unit, p.start, p.bytes),
        _ => part(unit, 0, 0),
    }
}

// A walk over a carried unit as a reader that holds the unit's bytes and the place of the next step. A step takes the
// reader apart and leaves the work to two functions of walking.rt, on the bytes and the place.
ghost use Rattle.std.specs.Prelude.{◌≡◌};
ghost use Rattle.tsobu.specs.Walk.{step_says, fresh, step_of, handed_by, behind};

use crate::walking::{Part, payload, step_on};
use refusal::Refused;

// The carried bytes, and the place of the next step, which only a step changes.
#[derive(Drop)]
pub struct Walk<'a> {
    src: &'a [u8],
    at: usize,
}

// What a step hands out: its answer (`None` at the end), and the payload as a part of the carried bytes, empty if there
// is none.
#[derive(Drop)]
pub struct Handed<'a> {
    pub step: Result<Option<Part>, Refused>,
    pub payload: &'a [u8],
}

impl<'a> Walk<'a> {
    // Returns a reader at the start of a unit.
    pub fn new(unit: &'a [u8]) -> Walk<'a>
        ensures { result ≡ fresh unit.entry }
    {
        Walk { src: unit, at: 0 }
    }

    // Returns the step at the reader's place, or refusal 9, 3 or 10. The reader then stands behind the payload that the
    // step handed out; at the end and at a refusal it stays.
    pub fn step(&mut self) -> Handed<'a>
        ensures step_value { step_says result.step ≡ step_of self.old }
        ensures payload_value { result.payload.now ≡ handed_by self.old }
        ensures self_after { self.new ≡ behind self.old }
    {
        let stepped = step_on(self.src, self.at);
        self.at = stepped.at;
        Handed {
            step: stepped.step,
            payload: payload(self.src, stepped.step),
        }
    }
}

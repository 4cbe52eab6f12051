// The walk over a carried unit, a step a call.
ghost use Rattle.std.specs.Prelude.{◌≡◌};
ghost use Rattle.refusal.specs.Number.{says};
ghost use Rattle.tsobu.specs.Walk.{step_says};
ghost use Rattle.answers.specs.Answers.{start_answer, step_answer};

use refusal::Refused;
use tsobu::Part;

// end 1: the walk has come to the end. Otherwise, with number 0, a payload: where it begins, its length, and the place
// of the next step.
#[repr(C)]
#[derive(Default, Drop)]
pub struct WalkStep {
    pub number: u64,
    pub place: u64,
    pub end: u64,
    pub start: u64,
    pub length: u64,
    pub next_at: u64,
}

// The place of the first step, or the refusal.
impl From<Result<usize, Refused>> for WalkStep {
    ghost from_gives = { λ started step. step ≡ start_answer (says started) };

    fn from(started: Result<usize, Refused>) -> WalkStep {
        match started {
            Ok(at) => WalkStep {
                next_at: at as u64,
                ..WalkStep::default()
            },
            Err(refused) => WalkStep {
                number: refused.why.number() as u64,
                place: refused.place as u64,
                ..WalkStep::default()
            },
        }
    }
}

// The step that was made at this place. At the end and at a refusal the walk stays there.
// Stays: `From` of the step alone does not know the place, which the C interface hands out beside it.
pub fn step_answer(at: usize, step: Result<Option<Part>, Refused>) -> WalkStep
    ensures { result ≡ step_answer at (step_says step) }
{
    match step {
        Ok(Some(part)) => WalkStep {
            start: part.start as u64,
            length: part.bytes as u64,
            next_at: part.next as u64,
            ..WalkStep::default()
        },
        Ok(None) => WalkStep {
            end: 1,
            next_at: at as u64,
            ..WalkStep::default()
        },
        Err(refused) => {
            let stays = at as u64;
            WalkStep {
                number: refused.why.number() as u64,
                place: refused.place as u64,
                next_at: stays,
                ..WalkStep::default()
            }
        }
    }
}

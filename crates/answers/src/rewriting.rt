// Rewriting the AV1 video descriptor of an old recording.
ghost use Rattle.std.specs.Prelude.{◌≡◌};
ghost use Rattle.refusal.specs.Number.{says};
ghost use Rattle.answers.specs.Rewriting.{rewrite_answer};

use descriptor::Outcome;
use refusal::Refused;

// count: the bytes written; dropped_delay 1: the descriptor had a delay, which is not written.
#[repr(C)]
#[derive(Default, Drop)]
pub struct RewriteAnswer {
    pub number: u64,
    pub place: u64,
    pub count: u64,
    pub dropped_delay: u64,
}

impl From<Result<Outcome, Refused>> for RewriteAnswer {
    ghost from_gives = { λ rewritten answer. answer ≡ rewrite_answer (says rewritten) };

    fn from(rewritten: Result<Outcome, Refused>) -> RewriteAnswer {
        match rewritten {
            Ok(outcome) => RewriteAnswer {
                count: outcome.bytes as u64,
                dropped_delay: outcome.dropped_delay as u64,
                ..RewriteAnswer::default()
            },
            Err(refused) => RewriteAnswer {
                number: refused.why.number() as u64,
                place: refused.place as u64,
                ..RewriteAnswer::default()
            },
        }
    }
}

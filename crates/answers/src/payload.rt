// The answer of unescaping one payload.
ghost use Rattle.std.specs.Prelude.{◌≡◌};
ghost use Rattle.refusal.specs.Number.{says};
ghost use Rattle.answers.specs.Answers.{unescape_answer};

use crate::answer::Answer;
use emulation::Counts;
use refusal::Refused;

// The bytes written and the bytes dropped; or the refusal.
impl From<Result<Counts, Refused>> for Answer {
    ghost from_gives = { λ unescaped answer. answer ≡ unescape_answer (says unescaped) };

    fn from(unescaped: Result<Counts, Refused>) -> Answer {
        match unescaped {
            Ok(counts) => Answer {
                count: counts.written as u64,
                dropped: counts.dropped as u64,
                ..Answer::default()
            },
            Err(refused) => refused.into(),
        }
    }
}

// The answer of reading or checking an access unit.
ghost use Rattle.std.specs.Prelude.{◌≡◌};
ghost use Rattle.refusal.specs.Number.{says};
ghost use Rattle.answers.specs.Answers.{unit_answer};

use crate::answer::Answer;
use refusal::Refused;
use unit::Counts;

// The OBUs, their bytes, and the bytes dropped; or the refusal.
impl From<Result<Counts, Refused>> for Answer {
    ghost from_gives = { λ read answer. answer ≡ unit_answer (says read) };

    fn from(read: Result<Counts, Refused>) -> Answer {
        match read {
            Ok(counts) => Answer {
                number: 0,
                place: 0,
                count: counts.obus as u64,
                bytes: counts.bytes as u64,
                dropped: counts.dropped as u64,
            },
            Err(refused) => refused.into(),
        }
    }
}

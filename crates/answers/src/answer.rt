// The answer that most exported functions give, and what the library's results are in it.
ghost use Rattle.std.specs.Prelude.{◌≡◌};
ghost use Rattle.refusal.specs.Number.{number_of, says};
ghost use Rattle.answers.specs.Answers.{refusal_answer, count_answer};

use refusal::Refused;

// number 0: no refusal.
#[repr(C)]
#[derive(Default, Drop)]
pub struct Answer {
    pub number: u64,
    pub place: u64,
    pub count: u64,
    pub bytes: u64,
    pub dropped: u64,
}

// A refusal's number and place.
impl From<Refused> for Answer {
    ghost from_gives = { λ refused answer. answer ≡ refusal_answer (number_of refused.why) refused.place };

    fn from(refused: Refused) -> Answer {
        Answer {
            number: refused.why.number() as u64,
            place: refused.place as u64,
            ..Answer::default()
        }
    }
}

// How many bytes were written, or the refusal.
impl From<Result<usize, Refused>> for Answer {
    ghost from_gives = { λ written answer. answer ≡ count_answer (says written) };

    fn from(written: Result<usize, Refused>) -> Answer {
        match written {
            Ok(count) => Answer {
                count: count as u64,
                ..Answer::default()
            },
            Err(refused) => refused.into(),
        }
    }
}

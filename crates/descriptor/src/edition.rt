// The editions of 000: the current one, and the draft of 2018 (request 2026-08).
ghost use Rattle.std.specs.Prelude.{◌≡◌};
ghost use Rattle.descriptor.specs.Edition.{edition_of};
ghost use Rattle.descriptor.specs.Naming.{edition_says, named_says};

use refusal::{Refusal, Refused};

#[derive(Clone, Copy)]
pub enum Edition {
    Current,
    Draft,
}

// The edition of this number, or refusal 44.
impl TryFrom<u64> for Edition {
    type Error = Refused;

    ghost try_from_gives = { λ number result. named_says result ≡ edition_of number };

    #[tactic(auto, unfolding(crate::specs::Edition::edition_of))]
    fn try_from(number: u64) -> Result<Edition, Refused> {
        match number {
            0 => Ok(Edition::Current),
            1 => Ok(Edition::Draft),
            _ => Err(Refusal::Edition.at(0)),
        }
    }
}

impl Edition {
    // Returns true if tag 0x80 is the video descriptor.
    pub fn interprets_video(self) -> bool
        ensures { result ≡ (edition_says self).interprets_video }
    {
        matches!(self, Edition::Current)
    }

    // Returns true if every access unit has a PTS.
    pub fn times_needed(self) -> bool
        ensures { result ≡ (edition_says self).times_needed }
    {
        matches!(self, Edition::Current)
    }
}

// The bytes of an OBU in the payload that carries it.
#![tactic(auto, using(crate::proofs::Places::place_steps))]

ghost use Rattle.std.specs.Prelude.{◌≡◌, ◌<◌, length, drop};
ghost use Rattle.emulation.specs.Parts.{marked};
ghost use Rattle.emulation.specs.Payload.{unescape};
ghost use Rattle.sequence.specs.Parts.{given, Follows};

// A byte of the OBU in its payload; paired if it is the second 00 of a 00 00 03, whose 03 is to be dropped.
#[derive(Clone, Copy)]
pub(crate) struct Place {
    pub byte: usize,
    pub paired: bool,
}

// Returns whether the three bytes 00 00 03 stand at `i`.
fn marked_at(payload: &[u8], i: usize) -> bool
    requires { i < length payload.now }
    ensures { result ≡ marked (drop i payload.now) }
{
    payload[i..].starts_with(&[0, 0, 3])
}

impl Place {
    // Returns the place behind the first `at` bytes of the OBU.
    pub(crate) fn behind(payload: &[u8], at: usize) -> Self
        ensures { given payload.now result ≡ drop at (unescape payload.now) }
    {
        let mut place = Place {
            byte: 0,
            paired: false,
        };
        for _ in 0..at {
            if payload.len() <= place.byte {
                return place;
            }
            place = place.next(payload);
        }
        place
    }

    // Returns the place of the next byte of the OBU.
    pub(crate) fn next(self, payload: &[u8]) -> Self
        requires { self.byte < length payload.now }
        ensures { Follows payload.now self result }
    {
        if self.paired {
            // past the 03
            return Place {
                byte: self.byte + 2,
                paired: false,
            };
        }
        Place {
            byte: self.byte + 1,
            paired: marked_at(payload, self.byte),
        }
    }
}

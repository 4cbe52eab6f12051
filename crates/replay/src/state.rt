// The state of a replay.
ghost use Rattle.std.specs.Prelude.{◌≡◌};
ghost use Rattle.replay.specs.Replay.{last_right, above_right, valid};

use ticks::Ticks27;

// The most arrivals since the fresh state.
pub(crate) const MOST_ARRIVALS: u64 = 1000000;

// The 512 bytes of the buffer, in bits times 27,000,000.
pub(crate) const BUFFER: u64 = 110592000000;

// What one arrival adds at most: 188 bytes.
const MOST_ADDED: u64 = 40608000000;

// Fill and highest fill are in bits times 27,000,000; arrivals are counted since the fresh state.
#[derive(Clone, Copy)]
pub struct State {
    pub fill: u64,
    pub highest: u64,
    pub last: Option<Ticks27>,
    pub arrivals: u64,
    pub above: Option<u64>,
}

impl State {
    // Returns whether the state's numbers go together, as those that runs lead to do.
    #[tactic(auto, unfolding(crate::specs::Replay::valid))]
    pub(crate) fn is_valid(self) -> bool
        ensures { result ≡ valid self }
    {
        self.arrivals <= MOST_ARRIVALS
            && self.fill <= self.highest
            && self.highest <= self.arrivals * MOST_ADDED
            && last_right(self.last, self.arrivals)
            && above_right(self.above, self.arrivals, self.highest)
    }
}

// Returns whether a last time goes with the number of arrivals.
fn last_right(last: Option<Ticks27>, arrivals: u64) -> bool
    ensures { result ≡ last_right last arrivals }
{
    match last {
        None => arrivals == 0,
        Some(_) => 0 < arrivals,
    }
}

// Returns whether a first arrival above goes with the number of arrivals and the highest fill.
fn above_right(above: Option<u64>, arrivals: u64, highest: u64) -> bool
    ensures { result ≡ above_right above arrivals highest }
{
    match above {
        None => highest <= BUFFER,
        Some(index) => index < arrivals && BUFFER < highest,
    }
}

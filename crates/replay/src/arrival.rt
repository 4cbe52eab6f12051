// One arrival.
ghost use Rattle.std.specs.Prelude.{◌≡◌, true, false, ◌≤◌, OnErr};
ghost use Rattle.replay.specs.Replay.{most_rate, second, rate_wrong, time_wrong, elapsed, arrival_wrong};
ghost use Rattle.replay.specs.Replay.{first_above, valid, arriving, arrived_says};
ghost use Rattle.replay.specs.Replay.{drained as replay_drained, filled as replay_filled, after as replay_after};

use crate::state::{BUFFER, MOST_ARRIVALS, State};
use refusal::{Refusal, Refused};
use ticks::Ticks27;

// Ticks of 27 MHz in a second.
const SECOND: u64 = 27000000;

// The most bytes of an arrival.
const MOST_BYTES: u64 = 188;

// The highest drain rate, in bits per second.
const MOST_RATE: u64 = 1000000000;

// A run that goes on: a state that runs lead to, and a rate within its bounds.
#[derive(Drop)]
pub(crate) struct Replay {
    pub state: State,
    pub rate: u64,
    ghost state_valid: { valid state ≡ true },
    ghost rate_right: { rate_wrong rate ≡ false },
}

impl Replay {
    // Takes an arrival. Returns refusal 46, then 47; the state is then left unchanged.
    pub(crate) fn arrive(&mut self, time: Ticks27, bytes: u64) -> Result<(), Refused>
        ensures arrives { arrived_says result self.new.state
            ≡ arriving self.old.rate self.old.state (record { time = time; bytes = bytes }) }
        ensures refused_keeps { OnErr result (self.new.state ≡ self.old.state) }
        ensures rate_kept { self.new.rate ≡ self.old.rate }
    {
        if time_wrong(self.state.last, time) {
            return Err(Refusal::ArrivalTime.at(0));
        }
        if arrival_wrong(self.state.arrivals, bytes) {
            return Err(Refusal::ReplayBounds.at(0));
        }
        self.state = self.after(time, bytes);
        Ok(())
    }

    // Returns the state after an arrival that passed.
    fn after(&self, time: Ticks27, bytes: u64) -> State
        requires { (time_wrong self.now.state.last time ≡ false)
            × (arrival_wrong self.now.state.arrivals bytes ≡ false) }
        ensures { result
            ≡ replay_after self.now.rate self.now.state (record { time = time; bytes = bytes }) }
    {
        let fill = self.filled(time, bytes);
        let before = self.state;
        State {
            fill,
            highest: before.highest.max(fill),
            last: Some(time),
            arrivals: before.arrivals + 1,
            above: first_above(before.above, before.arrivals, fill),
        }
    }

    // Returns the fill after an arrival that passed.
    fn filled(&self, time: Ticks27, bytes: u64) -> u64
        requires { (time_wrong self.now.state.last time ≡ false)
            × (arrival_wrong self.now.state.arrivals bytes ≡ false) }
        ensures { result
            ≡ replay_filled self.now.rate self.now.state (record { time = time; bytes = bytes }) }
    {
        let left = drained(
            self.state.fill,
            self.rate,
            ticks_since(self.state.last, time),
        );
        left + bytes * 8 * SECOND
    }
}

// Returns whether the rate is outside its bounds.
#[tactic(auto, unfolding(crate::specs::Replay::rate_wrong))]
pub(crate) fn rate_wrong(rate: u64) -> bool
    ensures { result ≡ rate_wrong rate }
{
    rate < 1 || MOST_RATE < rate
}

// Returns whether the time goes back or lies over a second behind the last.
fn time_wrong(last: Option<Ticks27>, time: Ticks27) -> bool
    ensures { result ≡ time_wrong last time }
{
    match last {
        None => false,
        Some(at) => {
            let now = time.0;
            let then = at.0;
            now < then || SECOND < now - then
        }
    }
}

// Returns whether the byte count or the number of arrivals is outside its bounds.
#[tactic(auto, unfolding(crate::specs::Replay::arrival_wrong))]
fn arrival_wrong(arrivals: u64, bytes: u64) -> bool
    ensures { result ≡ arrival_wrong arrivals bytes }
{
    MOST_BYTES < bytes || MOST_ARRIVALS <= arrivals
}

// Returns the ticks since the last time.
fn ticks_since(last: Option<Ticks27>, time: Ticks27) -> u64
    requires { time_wrong last time ≡ false }
    ensures { (result ≡ elapsed last time) × (result ≤ second) }
{
    match last {
        None => 0,
        Some(at) => time.0 - at.0,
    }
}

// Returns the fill after so many ticks, which are taken off at once.
#[tactic(auto, using(crate::proofs::Draining::at_once))]
fn drained(fill: u64, rate: u64, ticks: u64) -> u64
    requires { (rate ≤ most_rate) × (ticks ≤ second) }
    ensures { result ≡ replay_drained rate ticks fill }
{
    fill.saturating_sub(rate * ticks)
}

// Returns the first arrival above the buffer, after one of this index with this fill.
#[tactic(auto, unfolding(lists::specs::Lists::pick))]
fn first_above(above: Option<u64>, index: u64, fill: u64) -> Option<u64>
    ensures { result ≡ first_above above index fill }
{
    above.or((BUFFER < fill).then_some(index))
}

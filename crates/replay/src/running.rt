// A run over a trace.
ghost use Rattle.std.specs.Prelude.{◌≡◌, length};
ghost use Rattle.replay.specs.Replay.{trace, replay_from, running, ran_says};

use crate::arrival::{Replay, rate_wrong};
use crate::state::State;
use refusal::{Refusal, Refused};
use ticks::Ticks27;

impl State {
    // Runs over a trace from this state: the times and the byte counts of its arrivals. Returns refusal 47 at place 0
    // if the state is not one that runs lead to, if the rate is outside its bounds, or if the two lists differ in
    // length; then 46 or 47 at the index of the first arrival that is refused. The state is then that before this
    // arrival.
    pub fn run(&mut self, rate: u64, times: &[u64], counts: &[u64]) -> Result<(), Refused>
        ensures { ran_says (record { answer = result; state = self.new })
            ≡ running self.old rate times.now counts.now }
    {
        if !self.is_valid() || rate_wrong(rate) || times.len() != counts.len() {
            return Err(Refusal::ReplayBounds.at(0));
        }
        let mut replay = Replay { state: *self, rate };
        let ran = replay.run(times, counts);
        *self = replay.state;
        ran
    }
}

impl Replay {
    // Takes the arrivals in turn, up to the first that is refused; the place of the refusal is its index.
    fn run(&mut self, times: &[u64], counts: &[u64]) -> Result<(), Refused>
        requires { length times.now ≡ length counts.now }
        ensures { ran_says (record { answer = result; state = self.new.state })
            ≡ replay_from 0 self.old.rate self.old.state (trace times.now counts.now) }
    {
        for (i, (time, count)) in times.iter().zip(counts).enumerate() {
            self.arrive(Ticks27(*time), *count)
                .map_err(|refused| refused.why.at(i))?;
        }
        Ok(())
    }
}

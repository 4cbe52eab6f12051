// Replaying a trace through the transport buffer.
ghost use Rattle.std.specs.Prelude.{◌≡◌};
ghost use Rattle.answers.specs.Replaying.{replaying};

use answers::{ReplayAnswer, ReplayState};
use replay::State;

#[unsafe(no_mangle)]
pub extern "C" fn av1ts_replay(
    state: ReplayState,
    rate: u64,
    times: &[u64],
    counts: &[u64],
) -> ReplayAnswer
    ensures { result ≡ replaying state rate times.now counts.now }
{
    if !answers::state_right(state) {
        return answers::no_state(state);
    }
    let mut left: State = state.into();
    let ran = left.run(rate, times, counts);
    ReplayAnswer::new(ran, left)
}

// Replaying a trace through the transport buffer.
ghost use Rattle.std.specs.Prelude.{◌≡◌};
ghost use Rattle.replay.specs.Replay.{ran_says};
ghost use Rattle.answers.specs.Replaying.{pair_right, state_right, state_from, state_answer, replay_answer, no_state};

use refusal::{Refusal, Refused};
use replay::State;
use ticks::Ticks27;

// The state of a replay. has_last 0: there is no last time, and last is 0; has_above 0: none was above, and above is 0.
#[repr(C)]
#[derive(Clone, Copy)]
pub struct ReplayState {
    pub fill: u64,
    pub highest: u64,
    pub has_last: u64,
    pub last: u64,
    pub arrivals: u64,
    pub has_above: u64,
    pub above: u64,
}

// number 0: nothing was refused.
#[repr(C)]
#[derive(Drop)]
pub struct ReplayAnswer {
    pub number: u64,
    pub place: u64,
    pub state: ReplayState,
}

// Returns whether `has` is 1, or it and the value are 0.
#[tactic(auto, unfolding(crate::specs::Replaying::pair_right))]
fn pair_right(has: u64, value: u64) -> bool
    ensures { result ≡ pair_right has value }
{
    has == 1 || (has == 0 && value == 0)
}

// Returns whether the struct is that of a state.
#[tactic(auto, unfolding(crate::specs::Replaying::state_right))]
pub fn state_right(state: ReplayState) -> bool
    ensures { result ≡ state_right state }
{
    pair_right(state.has_last, state.last) && pair_right(state.has_above, state.above)
}

// The state that was handed in.
impl From<ReplayState> for State {
    ghost from_gives = { λ handed state. state ≡ state_from handed };

    fn from(handed: ReplayState) -> State {
        State {
            fill: handed.fill,
            highest: handed.highest,
            last: (handed.has_last != 0).then_some(Ticks27(handed.last)),
            arrivals: handed.arrivals,
            above: (handed.has_above != 0).then_some(handed.above),
        }
    }
}

// The state to hand back.
impl From<State> for ReplayState {
    ghost from_gives = { λ state handed. handed ≡ state_answer state };

    fn from(state: State) -> ReplayState {
        ReplayState {
            fill: state.fill,
            highest: state.highest,
            has_last: state.last.is_some() as u64,
            last: state.last.map_or(0, |time| time.0),
            arrivals: state.arrivals,
            has_above: state.above.is_some() as u64,
            above: state.above.unwrap_or(0),
        }
    }
}

impl ReplayAnswer {
    // Returns what a run answered, and the state that it left.
    pub fn new(ran: Result<(), Refused>, state: State) -> ReplayAnswer
        ensures { result ≡ replay_answer (ran_says (record { answer = ran; state = state })) }
    {
        let state = state.into();
        match ran {
            Ok(()) => ReplayAnswer {
                number: 0,
                place: 0,
                state,
            },
            Err(refused) => ReplayAnswer {
                number: refused.why.number() as u64,
                place: refused.place as u64,
                state,
            },
        }
    }
}

// A struct that is not that of a state, handed back.
pub fn no_state(state: ReplayState) -> ReplayAnswer
    ensures { result ≡ no_state state }
{
    ReplayAnswer {
        number: Refusal::ReplayBounds.number() as u64,
        place: 0,
        state,
    }
}

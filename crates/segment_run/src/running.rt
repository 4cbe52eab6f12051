// The packets of a segment in order, those of some runs at once.
ghost use Rattle.std.specs.Prelude.{◌≡◌, ◌+◌, ◌*◌, ◌<◌, ◌^◌};
ghost use Rattle.segment_rules.specs.Check.{outputs_of};
ghost use Rattle.std.specs.Prelude.{Err};
ghost use Rattle.segment_run.specs.Run.{Runs, fresh_result};
ghost use Rattle.segment_run.specs.Parts.{state_went};

use crate::going::{Went, go_on};
use crate::totals::{count_packet, count_went, none_yet};
use descriptor::Edition;
use extraction::State;
use packet::{PACKET_LENGTH, Streams};
use plain::{PAYLOAD_LENGTH, nulls};
use refusal::Refused;
use segment_rules::Totals;
use units::{clear, note_first};

// What the packets have said, with the verdict on them; if one was refused, what there was before the first.
// Stays: the state and the totals beside the verdict, since `run` promises both on a refusal (`Afresh`).
#[derive(Clone, Copy)]
pub struct RunResult {
    pub state: State,
    pub totals: Totals,
    pub outcome: Result<(), Refused>,
}

// Returns the result if a packet was refused: nothing is kept of those before it.
fn stopped(edition: Edition, refused: Refused) -> RunResult
    ensures { result ≡ fresh_result edition (Err refused) }
{
    RunResult {
        state: State::fresh(edition),
        totals: none_yet(),
        outcome: Err(refused),
    }
}

// Returns the state after packets that went on: on the AV1 PID the open PES has so many bytes more.
#[tactic(auto, unfolding(lists::specs::Lists::pick))]
fn went_on(state: State, went: Went) -> State
    requires { state.extraction.bytes + went.packets * 184 < 2 ^ 64 }
    ensures { result ≡ state_went state went }
{
    let mut next = state;
    if went.av1 {
        next.extraction.bytes += went.packets * PAYLOAD_LENGTH;
    }
    next
}

// Takes the packets in order, and writes into the outputs what is extracted of them. Bytes behind the last whole packet
// are none of them. On a refusal there are zeros throughout the four outputs, and state and totals are those before the
// first packet.
// Stays: `out`, `lens`, `times` are parameters, since `run` is promised of each (docs/PROMISES.md).
pub fn run(
    edition: Edition,
    segment: &[u8],
    out: &mut [u8],
    lens: &mut [usize],
    times: &mut [u64],
    firsts: &mut [usize],
) -> RunResult
    ensures { Runs edition segment.now
        (outputs_of out.old lens.old times.old) firsts.old result
        (outputs_of out.new lens.new times.new) firsts.new }
{
    let count = segment.len() / PACKET_LENGTH;
    let mut state = State::fresh(edition);
    let mut records = Streams::fresh();
    let mut totals = none_yet();
    let mut index: usize = 0;
    // Stays: a `while`, since a step takes one packet or a run of packets, so that no range or iterator counts them.
    while index < count {
        let skipped = nulls(segment, index);
        totals.null += skipped;
        index += skipped;
        if count <= index {
            continue;
        }
        let went = go_on(segment, index, state, &mut records, out);
        if went.packets != 0 {
            state = went_on(state, went);
            totals = count_went(went, totals);
            index += went.packets;
            continue;
        }
        let before = state.extraction;
        match state.step(segment, index, &mut records, out, lens, times) {
            Err(refused) => {
                clear(out, lens, times, firsts);
                return stopped(edition, refused);
            }
            Ok(kind) => {
                note_first(before, state.extraction, firsts);
                totals = count_packet(kind, totals);
                index += 1;
            }
        }
    }
    RunResult {
        state,
        totals,
        outcome: Ok(()),
    }
}

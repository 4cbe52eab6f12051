// The queue of the segment writer, and what send answers.
ghost use Rattle.refusal.specs.Number.{says};
ghost use Rattle.std.specs.Prelude.{◌≡◌, ◌<◌, not};
ghost use Rattle.answers.specs.Queueing.{slot_at, queue_from, state_of, channel_from, channel_state};
ghost use Rattle.answers.specs.Queueing.{add_answer, drop_answer, sent_answer};

use mux_rules::{Channel, Written};
use queue::{Queue, Queued};
use refusal::Refused;
use ticks::{Ticks27, Ticks90};

// Of each of the first `units` units, oldest first: its length in the store, its times, and its mark, 0 or 1; the rest
// is 0. total: how many bytes they have together.
#[repr(C)]
#[derive(Clone, Copy)]
pub struct QueueState {
    pub units: u64,
    // Stays: the C interface has these four arrays (av1ts_queue in include/av1ts.h).
    pub length: [u64; 8],
    pub pts: [u64; 8],
    pub dts: [u64; 8],
    pub marked: [u64; 8],
    pub total: u64,
}

// number 0: nothing was refused. empty 1: there was no unit to drop.
#[repr(C)]
#[derive(Drop)]
pub struct QueuedAnswer {
    pub number: u64,
    pub place: u64,
    pub empty: u64,
    pub queue: QueueState,
}

// The counters are those of each PID's next payload.
#[repr(C)]
#[derive(Drop)]
pub struct ChannelState {
    pub program: u64,
    pub map_pid: u64,
    pub av1_pid: u64,
    pub pcr: u64,
    pub pat_counter: u64,
    pub map_counter: u64,
    pub av1_counter: u64,
}

// number 0: the segment was written.
#[repr(C)]
#[derive(Drop)]
pub struct SentAnswer {
    pub number: u64,
    pub place: u64,
    pub bytes: u64,
    pub packets: u64,
    pub next: ChannelState,
    pub queue: QueueState,
}

// The unit in a slot of the struct.
fn slot_at(state: &QueueState, i: usize) -> Queued
    requires { i < 8 }
    ensures { result ≡ slot_at state.now i }
{
    Queued {
        length: state.length[i] as usize,
        pts: Ticks90(state.pts[i]),
        dts: Ticks90(state.dts[i]),
        marked: state.marked[i] != 0,
    }
}

// The queue that was handed in.
impl From<QueueState> for Queue {
    ghost from_gives = { λ handed queue. queue ≡ queue_from handed };

    fn from(handed: QueueState) -> Queue {
        Queue {
            count: handed.units as usize,
            units: [
                slot_at(&handed, 0),
                slot_at(&handed, 1),
                slot_at(&handed, 2),
                slot_at(&handed, 3),
                slot_at(&handed, 4),
                slot_at(&handed, 5),
                slot_at(&handed, 6),
                slot_at(&handed, 7),
            ],
            total: handed.total as usize,
        }
    }
}

// The queue to hand back.
impl From<Queue> for QueueState {
    ghost from_gives = { λ queue handed. handed ≡ state_of queue };

    fn from(queue: Queue) -> QueueState {
        let mut length = [0u64; 8];
        let mut pts = [0u64; 8];
        let mut dts = [0u64; 8];
        let mut marked = [0u64; 8];
        for i in 0..8 {
            let unit = queue.units[i];
            length[i] = unit.length as u64;
            pts[i] = unit.pts.0;
            dts[i] = unit.dts.0;
            marked[i] = unit.marked as u64;
        }
        QueueState {
            units: queue.count as u64,
            length,
            pts,
            dts,
            marked,
            total: queue.total as u64,
        }
    }
}

// The channel that was handed in.
impl From<ChannelState> for Channel {
    ghost from_gives = { λ handed channel. channel ≡ channel_from handed };

    fn from(handed: ChannelState) -> Channel {
        Channel {
            program: handed.program,
            map_pid: handed.map_pid,
            av1_pid: handed.av1_pid,
            pcr: Ticks27(handed.pcr),
            pat_counter: handed.pat_counter,
            map_counter: handed.map_counter,
            av1_counter: handed.av1_counter,
        }
    }
}

// The channel to hand back.
impl From<Channel> for ChannelState {
    ghost from_gives = { λ channel handed. handed ≡ channel_state channel };

    fn from(channel: Channel) -> ChannelState {
        ChannelState {
            program: channel.program,
            map_pid: channel.map_pid,
            av1_pid: channel.av1_pid,
            pcr: channel.pcr.0,
            pat_counter: channel.pat_counter,
            map_counter: channel.map_counter,
            av1_counter: channel.av1_counter,
        }
    }
}

impl QueuedAnswer {
    // Returns what add answered, and the queue then.
    pub fn added(answer: Result<(), Refused>, queue: Queue) -> QueuedAnswer
        ensures { result ≡ add_answer (says answer) queue }
    {
        let queue = queue.into();
        match answer {
            Ok(()) => QueuedAnswer {
                number: 0,
                place: 0,
                empty: 0,
                queue,
            },
            Err(refused) => QueuedAnswer {
                number: refused.why.number() as u64,
                place: refused.place as u64,
                empty: 0, // only drop finds it so
                queue,
            },
        }
    }

    // Returns whether drop dropped a unit, and the queue then.
    pub fn dropped(dropped: bool, queue: Queue) -> QueuedAnswer
        ensures { result ≡ drop_answer (not dropped) queue }
    {
        QueuedAnswer {
            number: 0,
            place: 0,
            empty: !dropped as u64,
            queue: queue.into(),
        }
    }
}

impl SentAnswer {
    // Returns what send answered, and the channel and the queue then.
    pub fn sent(answer: Result<Written, Refused>, channel: Channel, queue: Queue) -> SentAnswer
        ensures { result ≡ sent_answer (says answer) channel queue }
    {
        let next = channel.into();
        let queue = queue.into();
        match answer {
            Ok(written) => SentAnswer {
                number: 0,
                place: 0,
                bytes: written.bytes as u64,
                packets: written.packets as u64,
                next,
                queue,
            },
            Err(refused) => SentAnswer {
                number: refused.why.number() as u64,
                place: refused.place as u64,
                bytes: 0,
                packets: 0,
                next,
                queue,
            },
        }
    }
}

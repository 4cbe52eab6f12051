// The segment that send writes (document 02, request 2026-01), as definitions, and the theorems about them; no
// functions.
#![tactic(auto)]

use ticks::Ticks27;

// What the caller says of a segment that is to be written, beside the units and the video descriptor. The counters are
// those of each PID's next payload.
#[derive(Clone, Copy)]
pub struct Channel {
    pub program: u64,
    pub map_pid: u64,
    pub av1_pid: u64,
    pub pcr: Ticks27,
    pub pat_counter: u64,
    pub map_counter: u64,
    pub av1_counter: u64,
}

// How many bytes and packets were written.
#[derive(Drop)]
pub struct Written {
    pub bytes: usize,
    pub packets: usize,
}

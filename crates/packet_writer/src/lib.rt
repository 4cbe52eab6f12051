// The packets of a segment that is written (document 02, request 2026-01), each put over the front of an output. Where
// a number has more bits than its field, or the output no room for a packet, the output stays as it was.
#![tactic(auto)]

use ticks::Ticks90;

mod bytes;
mod clocks;
mod headers;
mod packets;
mod sections;
mod unfit;

pub use clocks::put_pcr;
pub use headers::{head_size, put_start};
pub use packets::{MOST_PAYLOAD, put_packet};
pub use sections::{put_pat, put_pmt};

// What the first packet of a PES says beside its PID and its counter: the flags of its adaptation field, the times, and
// how many bytes the unit has.
#[derive(Clone, Copy)]
pub struct Start {
    pub flags: u8,
    pub pts: Ticks90,
    pub dts: Ticks90,
    pub length: usize,
}

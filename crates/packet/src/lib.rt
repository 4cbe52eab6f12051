// One transport packet (ISO/IEC 13818-1, 2.4.3) and the records of its streams' continuity counters (document 01, "A
// segment").
#![tactic(auto)]

mod counter;
mod header;
mod streams;

pub use counter::{Checked, Counted, Last, Stream, same_bytes};
pub use header::{Header, NULL_PID, PACKET_LENGTH, packet_at, passes, payload, pid_of, read};
pub use streams::{FIRST_LISTED, Streams};

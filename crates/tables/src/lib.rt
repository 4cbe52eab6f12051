// What the packets of a segment say beside its access units (document 01, "A segment"): what a PID is, the counters,
// the PCR, PAT and PMT; rules 24 to 28.
#![tactic(auto)]

mod counters;
mod sections;
mod state;
mod tables;

pub use counters::check_counter;
pub use sections::section_at;
pub use state::{Kind, Packet, PatFound, PmtFound};
pub use tables::Tables;

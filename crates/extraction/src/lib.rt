// One packet of a segment by its rules (document 01, "A segment").
#![tactic(auto)]

mod packets;

pub use packets::State;

// The header of an AV1 PES, at the head of the payload of the packet that starts it (13818-1 2.4.3.6; document 01, "A
// segment").
#![tactic(auto)]

mod conditions;
mod fields;
mod header;

pub use header::{Header, Times, read};

// The packets of a segment in order (document 01, "A segment").
#![tactic(auto)]

mod going;
mod running;
mod totals;

pub use running::{RunResult, run};

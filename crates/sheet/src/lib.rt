// The sheet beside a segment (document 02, request 2026-09): reading it, and finding a unit in it.
#![tactic(auto)]

mod checking;
mod finding;
mod numbers;
mod obus;
mod reading;
mod rows;
mod sections;
mod units;

pub use finding::find_unit;
pub use reading::read;
pub use rows::{Counts, ObuRow, StreamRow, UnitRow};

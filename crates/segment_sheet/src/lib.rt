// The sheet of a segment that the check accepts (document 02, request 2026-09).
#![tactic(auto)]

mod ends;
mod numbers;
mod obus;
mod sections;
mod writing;

pub use writing::write;

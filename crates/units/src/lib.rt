// The access units that packets leave in the outputs (document 01, "A segment"): a PES opens, takes payload and closes;
// rules 29 to 32, 34 and 8.
#![tactic(auto)]

mod outputs;
mod state;
mod units;

pub use outputs::clear;
pub use state::PesFound;
pub use units::{Arrival, Extraction, note_first};

// The program map table (document 01, "A segment").
#![tactic(auto)]

mod entries;
mod loops;
mod section;
mod slots;

pub use entries::Entry;
pub use section::{ProgramMap, read_pmt};

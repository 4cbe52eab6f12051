// One access unit (document 01, "One access unit").
#![tactic(auto)]

mod limits;
mod reading;
mod writing;

pub use limits::{MOST_CARRIED, MOST_OBU_BYTES, MOST_OBUS};
pub use reading::{Counts, check, read};
pub use writing::write;

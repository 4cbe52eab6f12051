// The check of a segment (document 01, "A segment").
#![tactic(auto)]

mod checking;
mod comparing;

pub use checking::{Accepted, Summary, check};
pub use comparing::{Compared, check_compared};

// The text that the lister prints for a carried unit (document 01, "The lister program").
#![tactic(auto)]

mod lines;
mod listed;
mod text;

pub use listed::list;

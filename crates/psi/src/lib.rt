// Sections of program-specific information: how one lies in a packet, what PAT and PMT have in common, and the PAT
// (document 01, "A segment").
#![tactic(auto)]

mod common;
mod pat;
mod placing;

pub use common::common_wrong;
pub use pat::{Program, read_pat};
pub use placing::{find_section, section_of};

// The AV1 descriptors (000, 2; document 01, "The AV1 descriptors"; request 2026-12).
#![tactic(auto)]

mod edition;
mod fields;
mod reading;
mod registration;
mod rewriting;
mod writing;

pub use edition::Edition;
pub use fields::{Fields, Video};
pub use reading::{fields_of, read, wrong};
pub use registration::is_registration;
pub use rewriting::{Outcome, rewrite};
pub use writing::write;

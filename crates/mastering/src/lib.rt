// The mastering figures of metadata_hdr_mdcv (AV1 5.8; document 02, request 2026-14).
#![tactic(auto)]

mod figures;
mod numbers;
mod reading;
mod steps;
mod writing;

pub use figures::Figures;
pub use reading::read;
pub use steps::Steps;
pub use writing::write;

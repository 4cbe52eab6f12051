// The segment writer (document 02, request 2026-01).
#![tactic(auto)]

mod channel;
mod cutting;
mod frames;
mod measuring;
mod sending;
mod starting;
mod writing;

pub use sending::send;

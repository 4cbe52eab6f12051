// Escaping one OBU (000, 3.2; document 01, "Payload bytes").
#![tactic(auto)]

mod blocks;
mod escaping;

pub use escaping::{escape, escape_prefix, escaped_length};

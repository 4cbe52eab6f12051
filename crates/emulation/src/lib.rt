// Legal payloads, unescaping one payload, and what escaping shares with it (000, 3.2; document 01, "Payload bytes").
#![tactic(auto)]

mod blocks;
mod unescaping;
mod writing;

pub use blocks::{
    BLOCK, Reached, block_end, count_of, free_of, places, unpaired, wide, zeros_then,
};
pub use unescaping::{Counts, first_forbidden, judge, unescape, unescape_prefix};
pub use writing::copy_block;

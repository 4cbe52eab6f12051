// Inner functions with C names, for bench/ alone: they are no part of libav1ts.a.
#![tactic(auto)]

mod checksum;
mod header;

pub use checksum::measured_crc32;
pub use header::{PacketHeader, measured_header, measured_headers};

// One OBU (AV1, 5.3) and the order of OBUs in an access unit (document 01, "One access unit").
#![tactic(auto)]

mod header;
mod leb128;
mod ordering;

pub use header::{Header, JUDGED_BYTES, judge, read_header, size_bytes};
pub use leb128::{Leb128, read_leb128};
pub use ordering::{Kind, kind_number, kind_of, order, order_kinds};

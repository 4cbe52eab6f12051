// The C interface. include/av1ts.h says of each function what it refuses and what it leaves; a slice is passed as a
// pointer and a length. The structs are those of crates/answers.
#![tactic(auto)]

mod access_unit;
mod metadata;
mod payload;
mod queueing;
mod replaying;
mod rewriting;
mod salvaging;
mod segments;
mod sheets;
mod video_descriptor;
mod walk;

pub use access_unit::{
    av1ts_check_unit, av1ts_read_unit, av1ts_read_unit_widths, av1ts_write_unit,
};
pub use metadata::{av1ts_read_mastering, av1ts_write_mastering};
pub use payload::{av1ts_escape, av1ts_unescape};
pub use queueing::{
    av1ts_queue_add, av1ts_queue_clear, av1ts_queue_drop, av1ts_queue_send, av1ts_queue_total,
};
pub use replaying::av1ts_replay;
pub use rewriting::av1ts_rewrite_descriptor;
pub use salvaging::av1ts_salvage;
pub use segments::{av1ts_check_segment, av1ts_check_segment_edition};
pub use sheets::{av1ts_read_sheet, av1ts_sheet_unit, av1ts_write_sheet};
pub use video_descriptor::{av1ts_read_descriptor, av1ts_write_descriptor};
pub use walk::{av1ts_walk_start, av1ts_walk_step};

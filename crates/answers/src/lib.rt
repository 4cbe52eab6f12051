// The C structs of include/av1ts.h, what the library's answers are in them, and what is handed in by them.
#![tactic(auto)]

mod access_unit;
mod answer;
mod metadata;
mod payload;
mod queueing;
mod replaying;
mod rewriting;
mod salvaging;
mod segments;
mod sheets;
mod video_descriptor;
mod walk;

pub use answer::Answer;
pub use metadata::{MasteringAnswer, steps_from};
pub use queueing::{ChannelState, QueueState, QueuedAnswer, SentAnswer};
pub use replaying::{ReplayAnswer, ReplayState, no_state, state_right};
pub use rewriting::RewriteAnswer;
pub use salvaging::SalvageAnswer;
pub use segments::SegmentAnswer;
pub use sheets::{SheetAnswer, SheetFound, SheetWritten};
pub use video_descriptor::{VideoDescriptor, fields_from};
pub use walk::{WalkStep, step_answer};

// Start codes, the verdict on one tsOBU, and the walk over an access unit (document 01, "Payload bytes" and "One access
// unit").
#![tactic(auto)]

mod judging;
mod payloads;
mod reader;
mod start_codes;
mod walking;

pub use judging::{Figures, Found, judge_from, judge_payload};
pub use payloads::Payloads;
pub use reader::{Handed, Walk};
pub use start_codes::{at_start_code, find};
pub use walking::{Part, payload, start, step_at};

// The rules of document 01, "A segment", as definitions, and the laws about them; no functions.
#![tactic(auto)]

// Packets in their five classes.
#[derive(Clone, Copy)]
pub struct Totals {
    pub null: usize,
    pub section: usize,
    pub av1: usize,
    pub other_listed: usize,
    pub unlisted: usize,
}

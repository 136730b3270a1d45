// Answering a question: a window of records at a time, with jumps over stretches that stay as they are.
#![tactic(auto)]

pub mod ask;
pub mod drive;

// Building an index from words, counts and record numbers.
#![tactic(auto)]

pub mod build;
pub mod counts;
pub mod numbers;
pub mod size;
pub mod words;
pub mod write;

// A slot for each word of a question, in reading order: it keeps the word's entries, a range of them in the main index and one in the arrivals.
#![tactic(auto)]

pub mod bound;
pub mod compile;
pub mod row;

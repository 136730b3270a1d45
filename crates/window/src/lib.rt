// Sets of records by windows: 8,192 records at a time, as bits in words of 64.
#![tactic(auto)]

pub mod fill;
pub mod flips;
pub mod members;
pub mod steps;
pub mod tuning;

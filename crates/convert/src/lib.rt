// Numbers to intervals, and intervals to numbers.
#![tactic(auto)]

pub mod numbers;
pub mod runs;
pub mod to_intervals;
pub mod to_numbers;

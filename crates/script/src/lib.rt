// The lines of a script of cases: which are calls, their fields, and the numbers, texts and bytes that they say.
#![tactic(auto)]

pub mod lay;
pub mod number;
pub mod output;
pub mod part;
pub mod run;
pub mod text;

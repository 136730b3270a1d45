// The lines of the asking program: which lines an input has, and the bytes of an answer's line.
#![tactic(auto)]

pub mod line;
pub mod put;
pub mod split;

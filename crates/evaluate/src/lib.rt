// What a question's codes say of the records of a window, as bits.
#![tactic(auto)]

pub mod combine;
pub mod eval;
pub mod slot;

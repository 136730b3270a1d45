// The index: its trailer, its entries and its check.
#![tactic(auto)]

pub mod check;
pub mod entry;
pub mod trailer;

// The bytes of an index: cells, a list as it is kept, and a word with its list and its entry, each written at its place.
#![tactic(auto)]

pub mod cells;
pub mod entry;
pub mod kept;
pub mod size;

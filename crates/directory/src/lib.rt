// What is asked of an index by a word or by an entry number, and the parts of it that an entry names.
#![tactic(auto)]

pub mod entry;
pub mod find;
pub mod parts;
pub mod probe;
pub mod sense;

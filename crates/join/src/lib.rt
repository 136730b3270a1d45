// Reference 8.5: union and intersection of lists of an index, by the Ginix paper's four methods.
#![tactic(auto)]

pub mod join;
pub mod request;

// Reference 3.3: the union of the lists of a request, by two methods.
#![tactic(auto)]

pub mod active;
pub mod scan;

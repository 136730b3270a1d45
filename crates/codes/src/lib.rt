// A question's tokens as codes, without their bytes and places: its evaluation needs no word's bytes, only which word it is.
#![tactic(auto)]

pub mod code;
pub mod group;
pub mod read;

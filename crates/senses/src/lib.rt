// What a question's codes say of one record, by the senses of its words there, and until which number that stays so.
#![tactic(auto)]

pub mod kept;
pub mod look;
pub mod pair;

// Reference 1: the limits, by the names that the header gives them.
#![tactic(auto)]

// The largest record number, and the largest N.
pub const RECORD_MAX: u32 = 16_777_215;

// The bytes of an index.
pub const INDEX_MIN: usize = 20;

pub const INDEX_MAX: usize = 16_777_216;

// The words of an index.
pub const WORDS_MAX: usize = 65_535;

// The bytes of a word.
pub const WORD_MAX: usize = 32;

// The bytes of a question.
pub const QUESTION_MAX: usize = 256;

// The words of a question, a repeated one each time.
pub const QUESTION_WORDS_MAX: usize = 16;

// The brackets that are open at one place of a question.
pub const BRACKETS_MAX: usize = 8;

// The lists of one join.
pub const JOIN_MAX: usize = 16;

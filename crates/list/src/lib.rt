// Interval lists: their theory, and the reader of one list as an index keeps it.
#![tactic(auto)]

use limits::RECORD_MAX;

pub mod answer;
pub mod cell;
pub mod probe;
pub mod put;
pub mod reading;
pub mod rule;
pub mod seek;
pub mod sense;

// Above every record number.
pub const END: u32 = RECORD_MAX + 1;

// Reference 3.4: p and q, the two positions of a walk, as types of their own, so that neither is taken for the other.
#[derive(Clone, Copy)]
pub struct SingleAt(pub usize);

#[derive(Clone, Copy)]
pub struct PairAt(pub usize);

// A reading place: the next single and the next pair.
#[derive(Clone, Copy)]
pub struct Place {
    pub p: SingleAt,
    pub q: PairAt,
}

impl Place {
    pub const START: Place = Place {
        p: SingleAt(0),
        q: PairAt(0),
    };
}

// Reference 3.4: the regions S, L and U of a kept list. That they keep the list rule is a clause of the methods that need it and no invariant: `is_kept` is
// asked of any three regions.
#[derive(Clone, Copy)]
pub struct Kept<'a> {
    pub singles: &'a [u8],
    pub lower: &'a [u8],
    pub upper: &'a [u8],
}

// The list rule, in one pass over a kept list. Reference 3.4.
ghost use Rattle.std.specs.Prelude.{◌≡◌, ◌+◌, ◌/◌, ◌≤◌, length, drop, eqb};
ghost use Rattle.limits.specs.Limits.{record_max};
ghost use Rattle.list.specs.Cell.{numbers_in};
ghost use Rattle.list.specs.Kept.{is_kept};
ghost use Rattle.list.specs.Passed.{passed};

use crate::cell::number_at;
use crate::{END, Kept, SingleAt};

// Where a pass over singles ended, and the least that the next interval may begin with there.
#[derive(Clone, Copy)]
pub struct Pass {
    pub p: SingleAt,
    pub least: u32,
}

// Passes the singles below the bound, each of which has to be at least the one before plus 2: behind one that is not, nothing may begin.
fn pass_singles(singles: &[u8], from: SingleAt, bound: u32, least0: u32) -> Pass
    requires bound { bound ≤ record_max + 1 }
    requires from { from.0 ≤ length singles.now / 4 }
    ensures { result ≡ passed bound least0 from.0 (drop from.0 (numbers_in singles.now)) }
{
    let count = singles.len() / 4;
    let mut least = least0;
    for i in from.0..count {
        let s = number_at(singles, i);
        if bound <= s {
            return Pass {
                p: SingleAt(i),
                least,
            };
        }
        if s < least {
            return Pass {
                p: SingleAt(i),
                least: END,
            };
        }
        least = s + 2;
    }
    Pass {
        p: SingleAt(count),
        least,
    }
}

// Whether all the singles from a place on are passed. A function of its own, whose loop is the same code wherever the check is called, and short.
#[inline(never)]
fn passes_all(singles: &[u8], from: SingleAt, bound: u32, least: u32) -> bool
    requires bound { bound ≤ record_max + 1 }
    requires from { from.0 ≤ length singles.now / 4 }
    ensures { result ≡ eqb ((passed bound least from.0 (drop from.0 (numbers_in singles.now))).p.0) (length singles.now / 4) }
{
    let rest = pass_singles(singles, from, bound, least);
    let end = rest.p;
    end.0 == singles.len() / 4
}

impl Kept<'_> {
    // Whether the three regions are a list within 1 to n that keeps the list rule: by the pairs, with the singles before each passed on the way.
    pub fn is_kept(self, n: u32) -> bool
        requires paired { length self.lower.now ≡ length self.upper.now }
        requires limit { n ≤ record_max }
        ensures { result ≡ is_kept n (numbers_in self.entry.singles.now) (numbers_in self.entry.lower.now) (numbers_in self.entry.upper.now) }
    {
        let mut p = SingleAt(0);
        let mut least: u32 = 1;
        for q in 0..self.lower.len() / 4 {
            // U is tested before L is read, so that the jumps of a turn lie apart
            let u = number_at(self.upper, q);
            if n < u {
                return false;
            }
            let l = number_at(self.lower, q);
            if u <= l {
                return false;
            }
            let pass = pass_singles(self.singles, p, l, least);
            if l < pass.least {
                return false;
            }
            p = pass.p;
            least = u + 2;
        }
        passes_all(self.singles, p, n + 1, least)
    }
}

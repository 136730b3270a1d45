// Probing a kept list.
ghost use Rattle.std.specs.Prelude.{◌≡◌, ◌≤◌};
ghost use Rattle.limits.specs.Limits.{record_max};
ghost use Rattle.list.specs.Reading.{KeptIn, list_in};
ghost use Rattle.list.specs.Ginix.{below_count, overlap_count};

use crate::seek::count_below;
use crate::{Kept, PairAt, SingleAt};

#[derive(Clone, Copy)]
pub struct Probe {
    pub below: usize,
    pub overlapping: usize,
}

impl Kept<'_> {
    // Reference 3.3: the two counts, each as that of the singles and that of the pairs, by what ends before a and what begins by b.
    pub fn probe(self, a: u32, b: u32) -> Probe
        requires kept { KeptIn record_max self.singles.now self.lower.now self.upper.now }
        requires ordered { a ≤ b }
        requires within { b ≤ record_max }
        ensures below { result.below ≡ below_count a (list_in self.entry.singles.now self.entry.lower.now self.entry.upper.now) }
        ensures overlapping { result.overlapping ≡ overlap_count a b (list_in self.entry.singles.now self.entry.lower.now self.entry.upper.now) }
    {
        let p = SingleAt(count_below(self.singles, 0, a));
        let q = PairAt(count_below(self.upper, 0, a));
        let p_end = SingleAt(count_below(self.singles, p.0, b + 1));
        let q_end = PairAt(count_below(self.lower, q.0, b + 1));
        let below = p.0 + q.0;
        Probe {
            below,
            overlapping: p_end.0 + q_end.0 - below,
        }
    }
}

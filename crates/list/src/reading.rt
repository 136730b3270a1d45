// Reading places of a kept list, and the interval that is next at one.
ghost use Rattle.std.specs.Prelude.{◌≡◌, length};
ghost use Rattle.list.specs.Cell.{numbers_in};
ghost use Rattle.list.specs.Kept.{single_next, next_place, lower_at, upper_at};
ghost use Rattle.list.specs.Seek.{Ascends};
ghost use Rattle.list.specs.Reading.{Goes, reading_place};

use crate::cell::number_at;
use crate::seek::seek;
use crate::{Kept, PairAt, Place, SingleAt};

#[derive(Clone, Copy)]
pub struct Interval {
    pub lower: u32,
    pub upper: u32,
}

impl Kept<'_> {
    // Whether a single is next.
    pub fn single_next(self, p: SingleAt, q: PairAt) -> bool
        ensures { result ≡ single_next (numbers_in self.entry.singles.now) (numbers_in self.entry.lower.now) p.0 q.0 }
    {
        if p.0 < self.singles.len() / 4 {
            if q.0 < self.lower.len() / 4 {
                number_at(self.singles, p.0) < number_at(self.lower, q.0)
            } else {
                true
            }
        } else {
            false
        }
    }

    // The place behind the next interval.
    pub fn next_place(self, at: Place) -> Place
        requires { Goes (numbers_in self.singles.now) (numbers_in self.lower.now) at }
        ensures { result ≡ next_place (numbers_in self.entry.singles.now) (numbers_in self.entry.lower.now) at }
    {
        let p = at.p;
        let q = at.q;
        if self.single_next(p, q) {
            Place {
                p: SingleAt(p.0 + 1),
                q,
            }
        } else {
            Place {
                p,
                q: PairAt(q.0 + 1),
            }
        }
    }

    // The next interval.
    pub fn interval_at(self, at: Place) -> Interval
        requires goes { Goes (numbers_in self.singles.now) (numbers_in self.lower.now) at }
        requires paired { length self.lower.now ≡ length self.upper.now }
        ensures lower { result.lower ≡ lower_at (numbers_in self.entry.singles.now) (numbers_in self.entry.lower.now) at }
        ensures upper { result.upper ≡ upper_at (numbers_in self.entry.singles.now) (numbers_in self.entry.lower.now) (numbers_in self.entry.upper.now) at }
    {
        let p = at.p;
        let q = at.q;
        if self.single_next(p, q) {
            let s = number_at(self.singles, p.0);
            Interval { lower: s, upper: s }
        } else {
            Interval {
                lower: number_at(self.lower, q.0),
                upper: number_at(self.upper, q.0),
            }
        }
    }

    // The place behind all that ends before x, sought from a place nearby.
    pub fn reading_place(self, hint: Place, x: u32) -> Place
        requires singles { Ascends (numbers_in self.singles.now) }
        requires upper { Ascends (numbers_in self.upper.now) }
        ensures { result ≡ reading_place x (numbers_in self.entry.singles.now) (numbers_in self.entry.upper.now) }
    {
        let p = hint.p;
        let q = hint.q;
        Place {
            p: SingleAt(seek(self.singles, p.0, x)),
            q: PairAt(seek(self.upper, q.0, x)),
        }
    }
}

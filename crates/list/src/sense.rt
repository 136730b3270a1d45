// Whether a number is in a kept list, and up to which number that stays so.
ghost use Rattle.std.specs.Prelude.{◌≡◌, ◌≤◌};
ghost use Rattle.limits.specs.Limits.{record_max};
ghost use Rattle.list.specs.Interval.{names};
ghost use Rattle.list.specs.Cell.{numbers_in};
ghost use Rattle.list.specs.Reading.{KeptIn, list_in, reading_place};
ghost use Rattle.list.specs.Sense.{Steady, number_or_end};

use crate::cell::number_at;
use crate::{END, Kept, Place};

#[derive(Clone, Copy)]
pub struct Sense {
    pub inside: bool,
    pub until: u32,
}

// Number i of a region, or END behind the last.
fn number_or_end(region: &[u8], i: usize) -> u32
    ensures { result ≡ number_or_end (numbers_in region.now) i }
{
    if i < region.len() / 4 {
        number_at(region, i)
    } else {
        END
    }
}

impl Kept<'_> {
    // What the list says of x, at the place of x, and how long it says so.
    pub fn sense_at(self, at: Place, x: u32) -> Sense
        requires kept { KeptIn record_max self.singles.now self.lower.now self.upper.now }
        requires place { at ≡ reading_place x (numbers_in self.singles.now) (numbers_in self.upper.now) }
        requires within { x ≤ record_max }
        ensures { Steady (names (list_in self.entry.singles.now self.entry.lower.now self.entry.upper.now)) x result.inside result.until }
    {
        let p = at.p;
        let q = at.q;
        let s = number_or_end(self.singles, p.0);
        if s <= x {
            return Sense {
                inside: true,
                until: x + 1,
            };
        }
        let l = number_or_end(self.lower, q.0);
        if l <= x {
            return Sense {
                inside: true,
                until: number_at(self.upper, q.0) + 1,
            };
        }
        Sense {
            inside: false,
            until: s.min(l),
        }
    }
}

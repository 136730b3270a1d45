// A kept list filled into a window: the singles bit by bit, the pairs stretch by stretch, each side from what does not end before the window.
#![tactic(auto)]

ghost use Rattle.std.specs.Prelude.{◌≡◌, ◌+◌, ◌≤◌, length};
ghost use Rattle.limits.specs.Limits.{record_max};
ghost use Rattle.list.specs.Cell.{numbers_in};
ghost use Rattle.list.specs.Among.{among};
ghost use Rattle.list.specs.Interval.{names};
ghost use Rattle.list.specs.Reading.{KeptIn, list_in, reading_place};
ghost use Rattle.list.specs.Seek.{Ascends, count_below};
ghost use Rattle.window.specs.Tuning.{window_most};
ghost use Rattle.fill.specs.Added.{Added, pairs_in, Apart};

use list::cell::number_at;
use list::{Kept, PairAt, Place, SingleAt};

// Sets the bits of the singles from place `from` on, before which all lie below base. The answer is the first single behind the window.
fn fill_singles(singles: &[u8], from: SingleAt, base: u32, ws: &mut [u64]) -> SingleAt
    requires ascends { Ascends (numbers_in singles.now) }
    requires begins { from.0 ≡ count_below base (numbers_in singles.now) }
    requires size { length ws.old ≤ window_most }
    requires near { base ≤ record_max + 1 }
    ensures { Added (among (numbers_in singles.now)) base ws.old ws.new }
{
    let end = base + 64 * ws.len() as u32;
    let count = singles.len() / 4;
    for i in from.0..count {
        let s = number_at(singles, i);
        if end <= s {
            return SingleAt(i);
        }
        window::fill::set_bit(ws, s - base);
    }
    SingleAt(count)
}

// Sets the bits of the pairs from place `from` on, before which all end before base. The answer is the first pair that does not end in the window.
fn fill_pairs(lower: &[u8], upper: &[u8], from: PairAt, base: u32, ws: &mut [u64]) -> PairAt
    requires apart { Apart (numbers_in lower.now) (numbers_in upper.now) }
    requires begins { from.0 ≡ count_below base (numbers_in upper.now) }
    requires size { length ws.old ≤ window_most }
    requires near { base ≤ record_max + 1 }
    ensures { Added (names (pairs_in lower.now upper.now)) base ws.old ws.new }
{
    let size = 64 * ws.len() as u32;
    if size == 0 {
        return from;
    }
    let end = base + size;
    let count = lower.len() / 4;
    for q in from.0..count {
        let l = number_at(lower, q);
        if end <= l {
            return PairAt(q);
        }
        let u = number_at(upper, q);
        let a = l.saturating_sub(base);
        if end <= u {
            window::fill::fill_range(ws, a, size - 1);
            return PairAt(q);
        }
        window::fill::fill_range(ws, a, u - base);
    }
    PairAt(count)
}

// Sets the bits of a list's records, from the place of base on. The answer is where the next window reads on.
pub fn fill_list(kept: Kept<'_>, at: Place, base: u32, ws: &mut [u64]) -> Place
    requires kept { KeptIn record_max kept.singles.now kept.lower.now kept.upper.now }
    requires begins { at ≡ reading_place base (numbers_in kept.singles.now) (numbers_in kept.upper.now) }
    requires size { length ws.old ≤ window_most }
    requires near { base ≤ record_max + 1 }
    ensures { Added (names (list_in kept.entry.singles.now kept.entry.lower.now kept.entry.upper.now)) base ws.old ws.new }
{
    let p = fill_singles(kept.singles, at.p, base, ws);
    let q = fill_pairs(kept.lower, kept.upper, at.q, base, ws);
    Place { p, q }
}

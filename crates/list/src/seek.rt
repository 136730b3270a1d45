// How many numbers of an ascending region lie below x.
ghost use Rattle.std.specs.Prelude.{◌≡◌, ◌/◌, ◌≤◌, ltb, length};
ghost use Rattle.list.specs.Cell.{numbers_in};
ghost use Rattle.list.specs.Seek.{count_below, Ascends};

use crate::cell::number_at;

// The count, which lies from lo0 to hi0, by halves.
fn halve(region: &[u8], lo0: usize, hi0: usize, x: u32) -> usize
    requires ascends { Ascends (numbers_in region.now) }
    requires within { hi0 ≤ length region.now / 4 }
    requires low { lo0 ≤ count_below x (numbers_in region.now) }
    requires high { count_below x (numbers_in region.now) ≤ hi0 }
    ensures is { result ≡ count_below x (numbers_in region.now) }
    ensures within { result ≤ length region.now / 4 }
{
    let mut lo = lo0;
    let mut hi = hi0;
    // No `for`: what is left is halved, and not passed one by one.
    while lo < hi {
        let mid = lo + (hi - lo) / 2;
        if number_at(region, mid) < x {
            lo = mid + 1;
        } else {
            hi = mid;
        }
    }
    lo
}

// The count from a place that is not past it: by steps that double, then by halves.
pub fn count_below(region: &[u8], from: usize, x: u32) -> usize
    requires ascends { Ascends (numbers_in region.now) }
    requires low { from ≤ count_below x (numbers_in region.now) }
    ensures is { result ≡ count_below x (numbers_in region.now) }
    ensures within { result ≤ length region.now / 4 }
{
    let n = region.len() / 4;
    let mut lo = from;
    let mut hi = from;
    let mut step: usize = 1;
    // No `for`: the place moves by steps that double.
    while hi < n {
        if x <= number_at(region, hi) {
            return halve(region, lo, hi, x);
        }
        lo = hi + 1;
        if n - lo < step {
            hi = n;
        } else {
            hi = lo + step;
            step = 2 * step;
        }
    }
    halve(region, lo, hi, x)
}

// Whether the count is past i: there is a number i, and it is below x.
fn past(region: &[u8], i: usize, x: u32) -> bool
    requires { Ascends (numbers_in region.now) }
    ensures { result ≡ ltb i (count_below x (numbers_in region.now)) }
{
    if i < region.len() / 4 {
        number_at(region, i) < x
    } else {
        false
    }
}

// The count from any hint: from behind it, where the count is past it; the hint itself, where the count is past the number in front of it only.
pub fn seek(region: &[u8], hint: usize, x: u32) -> usize
    requires { Ascends (numbers_in region.now) }
    ensures is { result ≡ count_below x (numbers_in region.now) }
    ensures within { result ≤ length region.now / 4 }
{
    if past(region, hint, x) {
        return count_below(region, hint + 1, x);
    }
    if hint == 0 {
        return 0;
    }
    if past(region, hint - 1, x) {
        return hint;
    }
    count_below(region, 0, x)
}

// Writing one list as it is kept: the singles, then the lower and the upper bounds.
ghost use Rattle.std.specs.Prelude.{◌≡◌, ◌≤◌, eqb, length};
ghost use Rattle.convert.specs.Convert.{bad_number_of, intervals_of};
ghost use Rattle.list.specs.Front.{in_front};
ghost use Rattle.layout.specs.Layout.{kept_bytes};
ghost use Rattle.layout.specs.Laid.{ListCountsOf, laid, laid_to, LaidWithin};

use crate::cells::put_cell;
use crate::size::ListCounts;
use convert::runs::next_run;

// Where the next single, the next lower and the next upper bound of a list belong.
#[derive(Clone, Copy)]
pub struct Places {
    pub single: usize,
    pub lower: usize,
    pub upper: usize,
}

// Writes an interval of a list where the next of its kind belongs.
fn put_interval(out: &mut [u8], at: Places, l: u32, u: u32) -> Places
    requires { LaidWithin (eqb l u) at (length out.old) }
    ensures puts { out.new ≡ laid (eqb l u) out.old at l u }
    ensures moves { result ≡ laid_to (eqb l u) at }
{
    if l == u {
        put_cell(out, at.single, l);
        Places {
            single: at.single + 4,
            ..at
        }
    } else {
        put_cell(out, at.lower, l);
        put_cell(out, at.upper, u);
        Places {
            lower: at.lower + 4,
            upper: at.upper + 4,
            ..at
        }
    }
}

// Writes the list of ascending numbers from byte 0, as it is kept, in one pass; the bytes behind it stay.
pub fn write_list(out: &mut [u8], numbers: &[u32], kept: ListCounts)
    requires good { bad_number_of numbers.now ≡ None }
    requires counted { ListCountsOf numbers.now kept }
    requires room { length (kept_bytes (intervals_of numbers.now)) ≤ length out.old }
    ensures { out.new ≡ in_front (kept_bytes (intervals_of numbers.now)) out.old }
{
    let mut at = Places {
        single: 0,
        lower: 4 * kept.singles,
        upper: 4 * (kept.singles + kept.pairs),
    };
    let mut i = 0;
    // no `for`: the place moves by the run found, not by one
    while i < numbers.len() {
        let run = next_run(numbers, i);
        at = put_interval(out, at, run.lower, run.upper);
        i = run.next;
    }
}

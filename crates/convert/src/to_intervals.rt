// Numbers to intervals: a fault is looked for, then room is asked for, and only then is anything written.
ghost use Rattle.std.specs.Prelude.{◌≡◌, ◌≤◌, length};
ghost use Rattle.list.specs.Interval.{intervals};
ghost use Rattle.convert.specs.Convert.{bad_number_of, intervals_of, ToIntervals};
ghost use Rattle.list.specs.Front.{in_front};

use crate::numbers::first_bad_number;
use crate::runs::{gap, next_run};
use limits::RECORD_MAX;
use refusal::Refusal;

// How many intervals the numbers listed make.
fn count_intervals(listed: &[u32]) -> usize
    requires { bad_number_of listed.now ≡ None }
    ensures { result ≡ intervals (intervals_of listed.now) }
{
    let [first, rest @ ..] = listed else {
        return 0;
    };
    let mut u = *first;
    let mut n: usize = 1;
    for &x in rest {
        n += gap(u, x);
        u = x;
    }
    n
}

// Writes the intervals of the numbers from cell 0; the cells behind them stay.
fn write_intervals(numbers: &[u32], out: &mut [u32])
    requires good { bad_number_of numbers.now ≡ None }
    requires room { length (intervals_of numbers.now) ≤ length out.old }
    ensures { out.new ≡ in_front (intervals_of numbers.now) out.old }
{
    let mut k = 0;
    let mut i = 0;
    // no `for`: the place moves by the run found, not by one
    while i < numbers.len() {
        let run = next_run(numbers, i);
        out[k] = run.lower;
        out[k + 1] = run.upper;
        k += 2;
        i = run.next;
    }
}

// Reference 8.7: refusals 15 and 12, or how many intervals were written.
pub fn to_intervals(numbers: &[u32], out: &mut [u32]) -> Result<usize, Refusal>
    ensures { ToIntervals numbers.now out.old out.new result }
{
    if let Some(i) = first_bad_number(numbers, RECORD_MAX) {
        return Err(Refusal::Number(i));
    }
    let n = count_intervals(numbers);
    if out.len() / 2 < n {
        return Err(Refusal::Room(n));
    }
    write_intervals(numbers, out);
    Ok(n)
}

// One interval more of a join.
ghost use Rattle.std.specs.Prelude.{◌≡◌, true};
ghost use Rattle.merge.specs.Put.{Fitting, Put, PutWhere};

use list::answer::Tally;
use list::put::put_interval;
use list::reading::Interval;

// Counts an interval, and writes it where the list is written.
pub fn put(out: &mut [u32], writing: bool, tally: Tally, interval: Interval) -> Tally
    requires { Fitting writing out.old tally interval }
    ensures { Put writing out.old out.new tally interval result }
{
    let Interval { lower, upper } = interval;
    put_interval(out, writing, 2 * tally.intervals, lower, upper);
    Tally {
        intervals: tally.intervals + 1,
        records: tally.records + (upper - lower) as usize + 1,
    }
}

// Puts it where a test holds, and else leaves all as it was.
pub fn put_where(
    test: bool,
    out: &mut [u32],
    writing: bool,
    tally: Tally,
    interval: Interval,
) -> Tally
    requires { test ≡ true → Fitting writing out.old tally interval }
    ensures { PutWhere test writing out.old out.new tally interval result }
{
    if test {
        put(out, writing, tally, interval)
    } else {
        tally
    }
}

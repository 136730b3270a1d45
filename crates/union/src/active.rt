// The union by an active interval: intervals come in the order of their lower bounds, and join the active one or are put apart from it.
ghost use Rattle.std.specs.Prelude.{◌≡◌, ◌≤◌};
ghost use Rattle.limits.specs.Limits.{record_max};
ghost use Rattle.list.specs.Ginix.{union_of};
ghost use Rattle.merge.specs.Request.{SoundRequest, lists_of};
ghost use Rattle.list.specs.Sweeps.{HasRoom, Sweeps};
ghost use Rattle.union.specs.Active.{is_apart, Joined};

use heap::Heap;
use limits::JOIN_MAX;
use list::answer::Tally;
use list::reading::Interval;
use merge::keys::{BOUND, LISTS, fill, refill_heap};
use merge::places::{all_at_start, moved_on, next_interval};
use merge::put::{put, put_where};

// Whether the next interval neither overlaps the active one nor touches it.
fn apart(active: Interval, next: Interval) -> bool
    requires { active.upper ≤ record_max }
    ensures { result ≡ is_apart active next }
{
    active.upper + 1 < next.lower
}

// The active interval behind the next one, from which it is not apart, or at which it begins anew.
fn joined(active: Interval, next: Interval) -> Interval
    requires { active.upper ≤ record_max }
    ensures { Joined active next result }
{
    let upper = active.upper.max(next.upper);
    if apart(active, next) {
        Interval {
            lower: next.lower,
            upper,
        }
    } else {
        Interval {
            lower: active.lower,
            upper,
        }
    }
}

// Counts, and writes, the union of the lists of a request.
pub fn sweep_active(index: &[u8], entries: &[u32], writing: bool, out: &mut [u32]) -> Tally
    requires sound { SoundRequest index.now entries.now }
    requires room { HasRoom (union_of (lists_of index.now entries.now)) writing out.old }
    ensures { Sweeps (union_of (lists_of index.now entries.now)) writing out.old out.new result }
{
    let mut keys = fill(index, entries);
    let mut places = all_at_start();
    let mut tally = Tally::default();
    // the least lower bound is in: the first interval joins it
    let first = keys.least() / BOUND;
    let mut active = Interval {
        lower: first,
        upper: first,
    };
    // no `for`: a list that is not used up comes back into the heap, so how many turns there are no range says
    while 0 < keys.size {
        let key = keys.least();
        let j = (key % LISTS) as usize;
        let entry = entries[j] as usize;
        let next = next_interval(index, entry, places[j]);
        tally = put_where(apart(active, next), out, writing, tally, active);
        active = joined(active, next);
        places = moved_on(index, entry, places, j);
        refill_heap(index, entry, places[j], j, &mut keys);
    }
    put(out, writing, tally, active)
}

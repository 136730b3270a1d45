// The union by the scan line: a counter goes up at each lower bound and down behind each upper one.
ghost use Rattle.std.specs.Prelude.{◌≡◌};
ghost use Rattle.list.specs.Ginix.{union_of};
ghost use Rattle.merge.specs.Request.{SoundRequest, lists_of};
ghost use Rattle.list.specs.Sweeps.{HasRoom, Sweeps};
ghost use Rattle.union.specs.Scan.{lower_from};

use heap::Heap;
use limits::JOIN_MAX;
use list::answer::Tally;
use list::reading::Interval;
use merge::keys::{BOUND, LISTS, fill, refill_heap, to_upper_heap};
use merge::places::{all_at_start, moved_on};
use merge::put::put_where;

// Where the open stretch begins, when a lower bound comes at x and `count` lists were in.
fn begun(count: usize, lower: u32, x: u32) -> u32
    ensures { result ≡ lower_from count lower x }
{
    if count == 0 { x } else { lower }
}

// Counts, and writes, the union of the lists of a request.
pub fn sweep_scan(index: &[u8], entries: &[u32], writing: bool, out: &mut [u32]) -> Tally
    requires sound { SoundRequest index.now entries.now }
    requires room { HasRoom (union_of (lists_of index.now entries.now)) writing out.old }
    ensures { Sweeps (union_of (lists_of index.now entries.now)) writing out.old out.new result }
{
    let mut keys = fill(index, entries);
    let mut places = all_at_start();
    let mut tally = Tally::default();
    let mut count = 0;
    let mut lower = 0;
    // no `for`: a list that is not used up comes back into the heap, so how many turns there are no range says
    while 0 < keys.size {
        let key = keys.least();
        let j = (key % LISTS) as usize;
        let entry = entries[j] as usize;
        if key / LISTS % 2 == 0 {
            lower = begun(count, lower, key / BOUND);
            count += 1;
            to_upper_heap(index, entry, places[j], j, &mut keys);
        } else {
            count -= 1;
            let stretch = Interval {
                lower,
                upper: key / BOUND - 1,
            };
            tally = put_where(count == 0, out, writing, tally, stretch);
            places = moved_on(index, entry, places, j);
            refill_heap(index, entry, places[j], j, &mut keys);
        }
    }
    tally
}

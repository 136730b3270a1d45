// Reference 3.3: the twin heap. Of the intervals that are next, one in each list, the least upper bound and the largest lower bound
// say where all overlap. The upper bounds stand in a min-heap, the lower bounds in a max-heap. Where a list moves on, its new lower bound is
// larger than the one it leaves behind, which is therefore never the largest again: it stays until the max-heap is full and is filled anew.
#![tactic(auto)]

ghost use Rattle.std.specs.Prelude.{◌≡◌, ◌*◌, ◌≤◌, ◌<◌, leb};
ghost use Rattle.limits.specs.Limits.{join_max, record_max};
ghost use Rattle.list.specs.Ginix.{intersection_of};
ghost use Rattle.merge.specs.Request.{SoundRequest, lists_of};
ghost use Rattle.list.specs.Sweeps.{HasRoom, Sweeps};
ghost use Rattle.twin.specs.Twin.{key_of, lack_of, StandingAt, AllLowers};

use heap::Heap;
use limits::JOIN_MAX;
use list::answer::Tally;
use list::reading::Interval;
use list::{END, Place};
use merge::keys::{LISTS, push_each};
use merge::places::{all_at_start, moved_on, next_interval, used_up};
use merge::put::put_where;

// The most lower bounds that stand in their heap: two of each list.
const LOWERS: usize = 2 * JOIN_MAX;

// The upper bound of list j's next interval, and the list that it is of.
fn key_of(j: usize, next: Interval) -> u32
    requires high { next.upper ≤ record_max }
    requires list { j < join_max }
    ensures { result ≡ key_of next.upper j }
{
    next.upper * LISTS + j as u32
}

// The lower bound of a next interval. A heap has its least in front, so it stands by what it lacks to END.
fn lack_of(_: usize, next: Interval) -> u32
    requires { next.lower ≤ record_max }
    ensures { result ≡ lack_of next.lower }
{
    END - next.lower
}

// Makes room for one more lower bound: a full heap is filled anew, which drops what the lists left behind.
fn with_room(index: &[u8], entries: &[u32], places: &[Place; JOIN_MAX], lowers: &mut Heap<LOWERS>)
    requires sound { SoundRequest index.now entries.now }
    requires stands { StandingAt index.now entries.now places.now }
    requires filled { AllLowers index.now entries.now places.now lowers.old.size lowers.old.cells }
    ensures fills { AllLowers index.now entries.now places.now lowers.new.size lowers.new.cells }
    ensures room { lowers.new.size < 2 * join_max }
{
    if lowers.size < LOWERS {
        return;
    }
    push_each(index, entries, places, lowers, lack_of);
}

// Whether all lists overlap there.
fn is_overlap(overlap: Interval) -> bool
    ensures { result ≡ leb overlap.lower overlap.upper }
{
    overlap.lower <= overlap.upper
}

// Counts, and writes, the intersection of the lists of a request. It ends with the first list that is used up.
pub fn sweep_twin(index: &[u8], entries: &[u32], writing: bool, out: &mut [u32]) -> Tally
    requires sound { SoundRequest index.now entries.now }
    requires room { HasRoom (intersection_of (lists_of index.now entries.now)) writing out.old }
    ensures { Sweeps (intersection_of (lists_of index.now entries.now)) writing out.old out.new result }
{
    let mut places = all_at_start();
    let mut uppers: Heap<JOIN_MAX> = Heap::new();
    push_each(index, entries, &places, &mut uppers, key_of);
    let mut lowers: Heap<LOWERS> = Heap::new();
    push_each(index, entries, &places, &mut lowers, lack_of);
    let mut tally = Tally::default();
    // no `for`: it ends where the first list is used up, which no range says
    loop {
        with_room(index, entries, &places, &mut lowers);
        let largest = END - lowers.least();
        let least = uppers.least();
        let overlap = Interval {
            lower: largest,
            upper: least / LISTS,
        };
        let j = (least % LISTS) as usize;
        let entry = entries[j] as usize;
        tally = put_where(is_overlap(overlap), out, writing, tally, overlap);
        places = moved_on(index, entry, places, j);
        let at = places[j];
        if used_up(index, entry, at) {
            return tally;
        }
        let next = next_interval(index, entry, at);
        uppers.replace_least(key_of(j, next));
        lowers.push(lack_of(j, next));
    }
}

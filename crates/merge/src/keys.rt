// The keys of the lists that are not used up: a bound, its side and its list in one number, so that the least key is the least bound.
// List j has 16 · 2l + j for a lower bound l, and 16 · (2(u + 1) + 1) + j for an upper bound u.
ghost use Rattle.std.specs.Prelude.{◌≡◌, ℕ, [], ◌∷◌, ◌+◌, ◌*◌, ◌≤◌, ◌<◌, length, take};
ghost use Rattle.limits.specs.Limits.{join_max, record_max};
ghost use Rattle.directory.specs.Regions.{EntryIn};
ghost use Rattle.heap.specs.Heap.{IsHeap};
ghost use Rattle.merge.specs.Request.{SoundRequest};
ghost use Rattle.merge.specs.Keys.{lower_mark, upper_mark, Heaped, Refilled, lower_due, FirstKeys};
ghost use Rattle.merge.specs.Places.{PlaceIn, GoesIn, AllGo, next_upper_in, next_at};

use crate::places::{all_at_start, next_interval, used_up};
use heap::{Heap, drop_least, replace_least};
use limits::JOIN_MAX;
use list::Place;
use list::reading::Interval;

// The last digit of a key is its list.
pub const LISTS: u32 = JOIN_MAX as u32;

// What 1 of a bound is worth in a key.
pub const BOUND: u32 = 2 * LISTS;

// The key of the lower bound of list j's next interval.
fn lower_key(j: usize, next: Interval) -> u32
    requires high { next.lower ≤ record_max }
    requires list { j < join_max }
    ensures { result ≡ lower_mark next.lower * join_max + j }
{
    next.lower * BOUND + j as u32
}

// Fills a heap with a number of each list of a request, which is that of its place in the request and of the interval that is next in it.
pub fn push_each<const N: usize, F: Fn(usize, Interval) -> u32>(
    index: &[u8],
    entries: &[u32],
    places: &[Place; JOIN_MAX],
    heap: &mut Heap<N>,
    number: F,
)
    requires sound { SoundRequest index.now entries.now }
    requires goes { AllGo index.now entries.now places.now }
    requires room { join_max ≤ N }
    requires may { (j : ℕ) → j < length entries.now → F.pre number j (next_at index.now entries.now places.now j) }
    ensures size { heap.new.size ≡ length entries.now }
    ensures pushes { Heaped (λ j x. F.post number j (next_at index.now entries.now places.now j) x) (length entries.now) heap.new.cells }
{
    heap.clear();
    for (j, &entry) in entries.iter().enumerate() {
        let next = next_interval(index, entry as usize, places[j]);
        heap.push(number(j, next));
    }
}

// The keys of all lists of a request, each at its start.
pub fn fill(index: &[u8], entries: &[u32]) -> Heap<JOIN_MAX>
    requires sound { SoundRequest index.now entries.now }
    ensures size { result.size ≡ length entries.now }
    ensures fills { FirstKeys index.now entries.now result.cells }
{
    let mut keys: Heap<JOIN_MAX> = Heap::new();
    push_each(index, entries, &all_at_start(), &mut keys, lower_key);
    keys
}

// The next lower bound of list j comes in the place of the least key, which goes where the list is used up: how many keys there are then. The keys are the
// first `size` of the lent cells.
pub fn refill(
    index: &[u8],
    entry: usize,
    at: Place,
    j: usize,
    keys: &mut [u32],
    size: usize,
) -> usize
    requires entry { EntryIn index.now entry }
    requires place { PlaceIn index.now entry at }
    requires list { j < join_max }
    requires some { 0 < size }
    requires within { size ≤ length keys.old }
    requires ordered { IsHeap (take size keys.old) }
    ensures { Refilled j (lower_due index.now entry at) size keys.old result keys.new }
{
    if used_up(index, entry, at) {
        drop_least(keys, size);
        return size - 1;
    }
    let key = lower_key(j, next_interval(index, entry, at));
    replace_least(keys, size, key);
    size
}

// The same of a heap of keys.
pub fn refill_heap(index: &[u8], entry: usize, at: Place, j: usize, keys: &mut Heap<JOIN_MAX>)
    requires entry { EntryIn index.now entry }
    requires place { PlaceIn index.now entry at }
    requires list { j < join_max }
    requires some { 0 < keys.old.size }
    ensures { Refilled j (lower_due index.now entry at) keys.old.size keys.old.cells keys.new.size keys.new.cells }
{
    keys.size = refill(index, entry, at, j, &mut keys.cells, keys.size);
}

// The upper bound of list j's next interval comes in the place of the least key, its lower one. The keys are the first `size` of the lent cells.
pub fn to_upper(index: &[u8], entry: usize, at: Place, j: usize, keys: &mut [u32], size: usize)
    requires entry { EntryIn index.now entry }
    requires goes { GoesIn index.now entry at }
    requires list { j < join_max }
    requires some { 0 < size }
    requires within { size ≤ length keys.old }
    requires ordered { IsHeap (take size keys.old) }
    ensures { Refilled j (upper_mark (next_upper_in index.now entry at) ∷ []) size keys.old size keys.new }
{
    let next = next_interval(index, entry, at);
    let key = (next.upper + 1) * BOUND + LISTS + j as u32;
    replace_least(keys, size, key);
}

// The same of a heap of keys.
pub fn to_upper_heap(index: &[u8], entry: usize, at: Place, j: usize, keys: &mut Heap<JOIN_MAX>)
    requires entry { EntryIn index.now entry }
    requires goes { GoesIn index.now entry at }
    requires list { j < join_max }
    requires some { 0 < keys.old.size }
    ensures keeps { keys.new.size ≡ keys.old.size }
    ensures refills { Refilled j (upper_mark (next_upper_in index.now entry at) ∷ []) keys.old.size keys.old.cells keys.old.size keys.new.cells }
{
    to_upper(index, entry, at, j, &mut keys.cells, keys.size);
}

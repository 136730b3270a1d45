// Reading places, one for each list of a join.
ghost use Rattle.std.specs.Prelude.{◌≡◌, ◌<◌, length, get_or, set, replicate};
ghost use Rattle.limits.specs.Limits.{join_max};
ghost use Rattle.list.specs.Cell.{numbers_in};
ghost use Rattle.list.specs.Kept.{start};
ghost use Rattle.directory.specs.Regions.{EntryIn};
ghost use Rattle.merge.specs.Places.{PlaceIn, GoesIn, next_lower_in, next_upper_in, place_behind, used_up, CanStep, one_on};

use directory::parts::{interval_count, kept_of};
use limits::JOIN_MAX;
use list::reading::Interval;
use list::{Kept, Place};

// Every place at the start of its list.
pub fn all_at_start() -> [Place; JOIN_MAX]
    ensures { result ≡ replicate join_max start }
{
    [Place::START; JOIN_MAX]
}

// The thin step: reading place j of a lent slice moves on in its list.
pub fn step(places: &mut [Place], j: usize, kept: Kept<'_>)
    requires { CanStep (length places.old) places.old j (numbers_in kept.singles.now) (numbers_in kept.lower.now) }
    ensures { places.new ≡ one_on places.old j (numbers_in kept.entry.singles.now) (numbers_in kept.entry.lower.now) }
{
    places[j] = kept.next_place(places[j]);
}

// By value, for callers that lend nothing: the array is lent to `step` and handed back.
pub fn stepped(places: [Place; JOIN_MAX], j: usize, kept: Kept<'_>) -> [Place; JOIN_MAX]
    requires { CanStep join_max places j (numbers_in kept.singles.now) (numbers_in kept.lower.now) }
    ensures { result ≡ one_on places j (numbers_in kept.entry.singles.now) (numbers_in kept.entry.lower.now) }
{
    let mut all = places;
    step(&mut all, j, kept);
    all
}

// The same, the list being that of an entry.
pub fn moved_on(
    index: &[u8],
    entry: usize,
    places: [Place; JOIN_MAX],
    j: usize,
) -> [Place; JOIN_MAX]
    requires entry { EntryIn index.now entry }
    requires list { j < join_max }
    requires goes { GoesIn index.now entry (get_or places j start) }
    ensures { result ≡ set places j (place_behind index.now entry (get_or places j start)) }
{
    stepped(places, j, kept_of(index, entry))
}

// The interval of an entry's list that is next at a place.
pub fn next_interval(index: &[u8], entry: usize, at: Place) -> Interval
    requires entry { EntryIn index.now entry }
    requires goes { GoesIn index.now entry at }
    ensures lower { result.lower ≡ next_lower_in index.now entry at }
    ensures upper { result.upper ≡ next_upper_in index.now entry at }
{
    kept_of(index, entry).interval_at(at)
}

// Whether an entry's list is used up at a place of it.
pub fn used_up(index: &[u8], entry: usize, at: Place) -> bool
    requires entry { EntryIn index.now entry }
    requires place { PlaceIn index.now entry at }
    ensures { result ≡ used_up index.now entry at }
{
    interval_count(index, entry) <= at.p.0 + at.q.0
}

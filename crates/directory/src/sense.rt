// What the list of an entry says of one record, read on from where it was read last.
ghost use Rattle.std.specs.Prelude.{◌≡◌, ℕ, ◌≤◌, ◌<◌, length, set};
ghost use Rattle.limits.specs.Limits.{record_max};
ghost use Rattle.list.specs.Interval.{names};
ghost use Rattle.list.specs.Sense.{Steady};
ghost use Rattle.index.specs.Format.{list_of};
ghost use Rattle.directory.specs.Regions.{EntryIn, RegionsOf, Marked, list_place};

use crate::parts::{Regions, regions_of};
use list::Place;
use list::sense::Sense;

// Whether x is in the list between the marks, and up to where that stays so. The place of x is sought from hint k, and kept there for the next.
pub fn sense_by(index: &[u8], regions: Regions, x: u32, k: usize, hints: &mut [Place]) -> Sense
    requires marked { Marked index.now regions }
    requires high { x ≤ record_max }
    requires hint { k < length hints.old }
    ensures keeps { length hints.new ≡ length hints.old }
    ensures place { (i : ℕ) → RegionsOf index.now i regions → hints.new ≡ set hints.old k (list_place index.now i x) }
    ensures steady { (i : ℕ) → RegionsOf index.now i regions → Steady (names (list_of index.now i)) x result.inside result.until }
{
    let kept = regions.kept_in(index);
    let at = kept.reading_place(hints[k], x);
    hints[k] = at;
    kept.sense_at(at, x)
}

// In the list of an entry.
pub fn sense_in(index: &[u8], entry: usize, x: u32, k: usize, hints: &mut [Place]) -> Sense
    requires entry { EntryIn index.now entry }
    requires high { x ≤ record_max }
    requires hint { k < length hints.old }
    ensures keeps { length hints.new ≡ length hints.old }
    ensures place { hints.new ≡ set hints.old k (list_place index.now entry x) }
    ensures steady { Steady (names (list_of index.now entry)) x result.inside result.until }
{
    sense_by(index, regions_of(index, entry), x, k, hints)
}

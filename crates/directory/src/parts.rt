// The parts of a sound index that an entry names: its word, and the three regions of its list. An index and an entry's number stay two parameters, and that the
// index has the entry a clause: docs/CONTRACTS.md names these functions as calls, and a type with that as its invariant would ask more of a caller.
ghost use Rattle.std.specs.Prelude.{◌≡◌, ◌+◌, ◌*◌, ◌≤◌, length};
ghost use Rattle.list.specs.Interval.{intervals};
ghost use Rattle.index.specs.Format.{word_start, word_length, list_of};
ghost use Rattle.index.specs.Part.{slice_of, part_of};
ghost use Rattle.index.specs.Read.{EntryCells};
ghost use Rattle.directory.specs.Regions.{EntryIn, RegionsOf, Marked, KeptOf, singles_in, lower_in, upper_in};

use index::entry::Entry;
use list::Kept;

// Entry i of a sound index: its word and its list lie within the index.
pub fn sound_entry(index: &[u8], i: usize) -> Entry
    requires { EntryIn index.now i }
    ensures is { EntryCells index.now i result }
    ensures word { result.word_start + result.word_length ≤ length index.now }
    ensures list { result.list_start + 4 * result.singles + 8 * result.pairs ≤ length index.now }
{
    let trailer = index::trailer::read_trailer(index);
    index::entry::read_entry(index, trailer, i)
}

// The word itself, and no copy of it.
pub fn word_of<'a>(index: &'a [u8], i: usize) -> &'a [u8]
    requires { EntryIn index.now i }
    ensures { slice_of result ≡ part_of (word_start index.now i) (word_length index.now i) (slice_of index.entry) }
{
    let entry = sound_entry(index, i);
    let start = entry.word_start;
    let end = start + entry.word_length;
    &index[start..end]
}

// Reference 4.3: where the regions S, L and U of a list begin, and where U ends: what is kept of a list by a caller whom its index is lent anew each time.
#[derive(Clone, Copy)]
pub struct Regions {
    pub s: usize,
    pub l: usize,
    pub u: usize,
    pub end: usize,
}

impl Regions {
    // The list between the marks, in the index's own memory.
    pub fn kept_in<'a>(self, index: &'a [u8]) -> Kept<'a>
        requires { Marked index.now self }
        ensures singles { result.singles.now ≡ singles_in index.now self }
        ensures lower { result.lower.now ≡ lower_in index.now self }
        ensures upper { result.upper.now ≡ upper_in index.now self }
    {
        Kept {
            singles: &index[self.s..self.l],
            lower: &index[self.l..self.u],
            upper: &index[self.u..self.end],
        }
    }
}

pub fn regions_of(index: &[u8], i: usize) -> Regions
    requires { EntryIn index.now i }
    ensures { RegionsOf index.now i result }
{
    let entry = sound_entry(index, i);
    let s = entry.list_start;
    let l = s + 4 * entry.singles;
    let u = l + 4 * entry.pairs;
    let end = u + 4 * entry.pairs;
    Regions { s, l, u, end }
}

// The list of an entry, in the index's own memory.
pub fn kept_of<'a>(index: &'a [u8], i: usize) -> Kept<'a>
    requires { EntryIn index.now i }
    ensures { KeptOf index.now i result }
{
    regions_of(index, i).kept_in(index)
}

// How many intervals the list of entry i has: one for each single and for each pair.
pub fn interval_count(index: &[u8], i: usize) -> usize
    requires { EntryIn index.now i }
    ensures is { result ≡ intervals (list_of index.now i) }
    ensures few { result ≤ 4194304 }
{
    let entry = sound_entry(index, i);
    entry.singles + entry.pairs
}

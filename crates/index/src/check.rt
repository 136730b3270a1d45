// The check of an index: refusals 1 to 5. Reference 5.
ghost use Rattle.std.specs.Prelude.{◌≡◌, not, false, Some, ◌&&◌, ℕ, ◌+◌, ◌*◌, ◌≤◌, ◌<◌, length};
ghost use Rattle.limits.specs.Limits.{index_max, record_max};
ghost use Rattle.word.specs.Word.{is_word, before};
ghost use Rattle.index.specs.Format.{word_count};
ghost use Rattle.index.specs.Read.{TrailerOf, Framed, Small};
ghost use Rattle.index.specs.Sound.{bad_trailer, bad_entry};
ghost use Rattle.index.specs.Told.{DirectoryTold, ListTold};
ghost use Rattle.index.specs.Check.{bad_entry_of, bad_list_of, contents_of, check_of};

use crate::entry::{Entry, entry_place, read_entry};
use crate::trailer::{Trailer, read_trailer};
use limits::{INDEX_MAX, INDEX_MIN, RECORD_MAX, WORDS_MAX};
use list::Kept;
use refusal::Refusal;

// Reference 4.2: the edition of the format that is read.
const EDITION: u32 = 1;

// Whether N and n are within their limits, W is not past D, and the parts add up to the index's length.
fn trailer_good(index: &[u8], trailer: Trailer) -> bool
    requires { TrailerOf index.now trailer }
    ensures { result ≡ not (bad_trailer index.now) }
{
    if trailer.highest > RECORD_MAX {
        return false;
    }
    if trailer.count > WORDS_MAX {
        return false;
    }
    if trailer.directory < trailer.words {
        return false;
    }
    entry_place(trailer, trailer.count) + 20 == index.len()
}

// How many bytes an entry's list takes.
fn list_length(entry: Entry) -> usize
    requires { Small entry }
    ensures { result ≡ 4 * (entry.singles + 2 * entry.pairs) }
{
    4 * (entry.singles + 2 * entry.pairs)
}

// Reference 5.2: whether an entry keeps the directory rule, where the words before it end at `words` and the lists at `lists`.
fn directory_good(trailer: Trailer, entry: Entry, words: usize, lists: usize) -> bool
    requires words { words < 4294967296 }
    requires lists { lists < 4294967296 }
    requires entry { Small entry }
    ensures { DirectoryTold trailer entry words lists result }
{
    (entry.word_start == words)
        & (entry.list_start == lists)
        & (entry.singles + entry.pairs != 0)
        & (words + entry.word_length <= trailer.directory)
        & (lists + list_length(entry) <= trailer.words)
}

// Reference 5.3: whether a word keeps the word rule behind the word before it, where `every` spelling of the operators is barred or the small letters' alone.
#[tactic(auto, using(crate::proofs::RuleLaws::word_told))]
pub fn word_good(prior: &[u8], word: &[u8], every: bool) -> bool
    ensures { result ≡ (is_word every word.now && before prior.now word.now) }
{
    word::is_word(word, every) && word::compare(prior, word).is_lt()
}

// Reference 9.1, row 4: the first bad entry, or n, in one pass that sums up the lengths.
fn first_bad_entry(index: &[u8], trailer: Trailer) -> Option<usize>
    requires { Framed index.now trailer }
    ensures { result ≡ bad_entry_of index.now }
{
    let mut prior = trailer.words;
    let mut words = trailer.words;
    let mut lists: usize = 0;
    for i in 0..trailer.count {
        let entry = read_entry(index, trailer, i);
        if !directory_good(trailer, entry, words, lists) {
            return Some(i);
        }
        let next = words + entry.word_length;
        if !word_good(&index[prior..words], &index[words..next], false) {
            return Some(i);
        }
        prior = words;
        words = next;
        lists += list_length(entry);
    }
    if lists != trailer.words {
        return Some(trailer.count);
    }
    if words != trailer.directory {
        return Some(trailer.count);
    }
    None
}

// Reference 3.4: whether an entry's list keeps the list rule; its regions are slices of the index.
fn list_good(index: &[u8], entry: Entry, limit: u32) -> bool
    requires room { entry.list_start + 4 * entry.singles + 8 * entry.pairs ≤ length index.now }
    requires long { length index.now ≤ index_max }
    requires limit { limit ≤ record_max }
    ensures { ListTold index.now entry limit result }
{
    let start = entry.list_start;
    let lower = start + 4 * entry.singles;
    let upper = lower + 4 * entry.pairs;
    let end = upper + 4 * entry.pairs;
    let kept = Kept {
        singles: &index[start..lower],
        lower: &index[lower..upper],
        upper: &index[upper..end],
    };
    kept.is_kept(limit)
}

// What is found at a place: cold, so that a loop which looks there keeps no answer ready.
#[cold]
#[inline(never)]
fn found(i: usize) -> Option<usize>
    ensures { result ≡ Some i }
{
    Some(i)
}

// The first bad list, where every entry is good. Its code is its own, whatever stands around the check.
#[inline(never)]
fn first_bad_list(index: &[u8], trailer: Trailer) -> Option<usize>
    requires framed { Framed index.now trailer }
    requires entries { (i : ℕ) → i < word_count index.now → bad_entry index.now i ≡ false }
    ensures { result ≡ bad_list_of index.now }
{
    for k in 0..trailer.count {
        let entry = read_entry(index, trailer, k);
        if !list_good(index, entry, trailer.highest) {
            return found(k);
        }
    }
    None
}

// What is left to refuse once the trailer is good.
#[tactic(auto, using(crate::proofs::CheckLaws::entries_good), unfolding(crate::specs::Check::contents_of))]
fn check_entries(index: &[u8], trailer: Trailer) -> Result<(), Refusal>
    requires { Framed index.now trailer }
    ensures { result ≡ contents_of index.now }
{
    if let Some(i) = first_bad_entry(index, trailer) {
        return Err(Refusal::IndexEntry(i));
    }
    if let Some(i) = first_bad_list(index, trailer) {
        return Err(Refusal::IndexList(i));
    }
    Ok(())
}

// Reference 8.1: whether an index is sound, or the first refusal that holds.
#[tactic(auto, unfolding(crate::specs::Check::check_of, crate::specs::Sound::bad_length, crate::specs::Sound::bad_edition))]
pub fn check_index(index: &[u8]) -> Result<(), Refusal>
    ensures { result ≡ check_of index.now }
{
    let length = index.len();
    if length < INDEX_MIN {
        return Err(Refusal::IndexLength(length));
    }
    if length > INDEX_MAX {
        return Err(Refusal::IndexLength(length));
    }
    let trailer = read_trailer(index);
    if trailer.edition != EDITION {
        return Err(Refusal::IndexEdition(trailer.edition));
    }
    if !trailer_good(index, trailer) {
        return Err(Refusal::IndexTrailer);
    }
    check_entries(index, trailer)
}

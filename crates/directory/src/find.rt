// Looking a word up in the directory.
ghost use Rattle.std.specs.Prelude.{◌≡◌};
ghost use Rattle.word.specs.Word.{before, order_of};
ghost use Rattle.index.specs.Format.{word_of};
ghost use Rattle.index.specs.Sound.{Sound};
ghost use Rattle.directory.specs.Standing.{word_place, standing_of};
ghost use Rattle.directory.specs.Entry.{lookup_of};
ghost use Rattle.directory.specs.Regions.{EntryIn};

use index::trailer::word_count;
use refusal::Refusal;
use std::cmp::Ordering;

// How the word of entry i stands to a word.
#[tactic(auto, unfolding(index::specs::Format::word_of))]
fn order_at(index: &[u8], i: usize, word: &[u8]) -> Ordering
    requires { EntryIn index.now i }
    ensures { result ≡ order_of (word_of index.now i) word.now }
{
    word::compare(crate::parts::word_of(index, i), word)
}

fn stands_before(index: &[u8], i: usize, word: &[u8]) -> bool
    requires { EntryIn index.now i }
    ensures { result ≡ before (word_of index.now i) word.now }
{
    order_at(index, i, word).is_lt()
}

// The entry number at which the word stands or would stand: the directory is halved.
pub fn find_place(index: &[u8], word: &[u8]) -> usize
    requires { Sound index.now }
    ensures { result ≡ word_place index.now word.now }
{
    let mut low = 0;
    let mut high = word_count(index);
    // No `for` and no `binary_search`: the words stand in the index's bytes, so that no slice of words is there, and each turn halves what is left.
    while low < high {
        let middle = low + (high - low) / 2;
        if stands_before(index, middle, word) {
            low = middle + 1;
        } else {
            high = middle;
        }
    }
    low
}

// Where the word stands, or would stand: a word of the index stands at its place, so that one comparison tells.
pub fn find_word(index: &[u8], word: &[u8]) -> Result<usize, usize>
    requires { Sound index.now }
    ensures { result ≡ standing_of index.now word.now }
{
    let place = find_place(index, word);
    if place >= word_count(index) {
        return Err(place);
    }
    match order_at(index, place, word) {
        Ordering::Equal => Ok(place),
        Ordering::Less => Err(place),
        Ordering::Greater => Err(place),
    }
}

// Reference 8.2: the entry number of a word, which may be any bytes, or the first refusal that holds.
#[tactic(auto, unfolding(crate::specs::Entry::lookup_of))]
pub fn look_up(index: &[u8], word: &[u8]) -> Result<usize, Refusal>
    ensures { result ≡ lookup_of index.now word.now }
{
    index::check::check_index(index)?;
    find_word(index, word).map_err(Refusal::NoWord)
}

// The request of a join: when it is refused, and how many intervals its lists have.
ghost use Rattle.std.specs.Prelude.{◌≡◌, ◌≤◌, length};
ghost use Rattle.refusal.specs.First.{first};
ghost use Rattle.index.specs.Sound.{Sound};
ghost use Rattle.merge.specs.Request.{SoundRequest, lists_of};
ghost use Rattle.join.specs.Join.{bad_entry_number, entries_of, request_of};
ghost use Rattle.join.specs.Bound.{interval_sum};

use directory::parts::interval_count;
use limits::JOIN_MAX;
use refusal::Refusal;

// The first place in the request whose entry number is not below n.
fn first_bad_number(index: &[u8], entries: &[u32]) -> Option<usize>
    requires { Sound index.now }
    ensures { result ≡ first (bad_entry_number index.now entries.now) (length entries.now) }
{
    let count = index::trailer::word_count(index);
    entries.iter().position(|&entry| count <= entry as usize)
}

// Reference 9.2: refusal 13, then 14.
fn check_entries(index: &[u8], entries: &[u32]) -> Result<(), Refusal>
    requires { Sound index.now }
    ensures { result ≡ entries_of index.now entries.now }
{
    let count = entries.len();
    if count == 0 {
        return Err(Refusal::Lists(count));
    }
    if JOIN_MAX < count {
        return Err(Refusal::Lists(count));
    }
    match first_bad_number(index, entries) {
        Some(i) => Err(Refusal::EntryNumber(i)),
        None => Ok(()),
    }
}

// Whether a request may be answered: the index's own refusals first.
pub fn check_request(index: &[u8], entries: &[u32]) -> Result<(), Refusal>
    ensures { result ≡ request_of index.now entries.now }
{
    index::check::check_index(index)?;
    check_entries(index, entries)
}

// How many intervals the lists of a request have together.
pub fn interval_sum(index: &[u8], entries: &[u32]) -> usize
    requires { SoundRequest index.now entries.now }
    ensures sum { result ≡ interval_sum (lists_of index.now entries.now) }
    ensures few { result ≤ 67108864 }
{
    let mut sum = 0;
    for &entry in entries {
        sum += interval_count(index, entry as usize);
    }
    sum
}

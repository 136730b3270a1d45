// An entry by its number: whether the index has it, and its word, by two calls on the same arguments.
ghost use Rattle.std.specs.Prelude.{◌≡◌};
ghost use Rattle.index.specs.Part.{slice_of};
ghost use Rattle.directory.specs.Entry.{entry_check, entry_word};

use refusal::Refusal;

// Whether the index has the entry, or the first refusal that holds.
#[tactic(auto, unfolding(crate::specs::Entry::entry_check))]
pub fn entry_refusal(index: &[u8], entry: u32) -> Result<(), Refusal>
    ensures { result ≡ entry_check index.now entry }
{
    index::check::check_index(index)?;
    if (entry as usize) < index::trailer::word_count(index) {
        Ok(())
    } else {
        Err(Refusal::EntryNumber(0))
    }
}

// The word, where it stands in the index; an empty part where the first call refuses.
pub fn entry_word<'a>(index: &'a [u8], entry: u32) -> &'a [u8]
    ensures { slice_of result ≡ entry_word (slice_of index.entry) entry }
{
    match entry_refusal(index, entry) {
        Ok(()) => crate::parts::word_of(index, entry as usize),
        Err(_) => &index[..0],
    }
}

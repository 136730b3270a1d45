// The build: all that is lent is checked, then the index is written.
ghost use Rattle.std.specs.Prelude.{◌≡◌};
ghost use Rattle.build.specs.Build.{lent_of, Builds};
ghost use Rattle.build.specs.Passes.{GoodLent};

use crate::counts::check_counts;
use crate::numbers::check_numbers;
use crate::size::lists_size;
use crate::words::check_words;
use limits::{INDEX_MAX, RECORD_MAX};
use refusal::Refusal;

// What is lent to a build: the limit N, the words with a byte 10 behind each, and the records of each word, counted and then all in one.
#[derive(Clone, Copy)]
pub struct Lent<'a> {
    pub n: u32,
    pub words: &'a [u8],
    pub counts: &'a [u32],
    pub numbers: &'a [u32],
}

impl Lent<'_> {
    // Reference 9.2: refusals 19 with 0, 17, 18 and 15.
    fn check(self) -> Result<(), Refusal>
        ensures { result ≡ lent_of self.entry.n self.entry.words.now self.entry.counts.now self.entry.numbers.now }
    {
        if self.n > RECORD_MAX {
            return Err(Refusal::BuildSize(0));
        }
        let count = check_words(self.words)?;
        if let Some(i) = check_counts(self.counts, self.numbers.len(), count) {
            return Err(Refusal::BuildCount(i));
        }
        if let Some(i) = check_numbers(self.n, self.counts, self.numbers) {
            return Err(Refusal::Number(i));
        }
        Ok(())
    }

    // Reference 9.2: refusals 19 with 1 and 12, or the index written.
    fn build_checked(self, out: &mut [u8]) -> Result<usize, Refusal>
        requires { GoodLent self.n self.words.now self.counts.now self.numbers.now }
        ensures { Builds self.entry.n self.entry.words.now self.entry.counts.now self.entry.numbers.now out.old out.new result }
    {
        let lists = lists_size(self.counts, self.numbers);
        if lists > INDEX_MAX {
            return Err(Refusal::BuildSize(1));
        }
        let size = lists + (self.words.len() - self.counts.len()) + 20 * self.counts.len() + 20;
        if size > INDEX_MAX {
            return Err(Refusal::BuildSize(1));
        }
        if out.len() < size {
            return Err(Refusal::Room(size));
        }
        self.write_index(lists, out);
        Ok(size)
    }
}

// Reference 8.9: builds an index; how many bytes were written, or the first refusal that holds.
pub fn build_index(
    n: u32,
    words: &[u8],
    counts: &[u32],
    numbers: &[u32],
    out: &mut [u8],
) -> Result<usize, Refusal>
    ensures { Builds n words.now counts.now numbers.now out.old out.new result }
{
    let lent = Lent {
        n,
        words,
        counts,
        numbers,
    };
    lent.check()?;
    lent.build_checked(out)
}

// Writing an index: all words with their lists, and the trailer.
ghost use Rattle.std.specs.Prelude.{◌≡◌, ◌≤◌, length};
ghost use Rattle.limits.specs.Limits.{index_max, record_max};
ghost use Rattle.list.specs.Front.{in_front};
ghost use Rattle.build.specs.Lent.{lent_words, lists_from};
ghost use Rattle.layout.specs.Layout.{lists_bytes};
ghost use Rattle.build.specs.Build.{index_from};
ghost use Rattle.build.specs.Passes.{GoodLent, Lists, lent_entered, AllWithin};

use crate::build::Lent;
use layout::cells::put_five;
use layout::entry::{Spots, write_word};
use parts::part_end;

// Writes all words with their lists.
fn write_words(out: &mut [u8], from: Spots, words: &[u8], counts: &[u32], numbers: &[u32])
    requires lists { Lists counts.now numbers.now }
    requires as_many { length (lent_words words.now) ≡ length counts.now }
    requires within { AllWithin from (lent_words words.now) (lists_from counts.now numbers.now) (length out.old) }
    ensures { out.new ≡ lent_entered out.old from words.now counts.now numbers.now }
{
    let mut at = from;
    let mut start = 0;
    let mut first = 0;
    for i in 0..counts.len() {
        let end = part_end(words, start, b'\n');
        let last = first + counts[i] as usize;
        at = write_word(out, at, &words[start..end], &numbers[first..last]);
        start = end + 1;
        first = last;
    }
}

impl Lent<'_> {
    // Writes the index from byte 0, where the lists take the first `lists` bytes; the bytes behind it stay.
    pub fn write_index(self, lists: usize, out: &mut [u8])
        requires good { GoodLent self.n self.words.now self.counts.now self.numbers.now }
        requires counted { lists ≡ length (lists_bytes record_max (lists_from self.counts.now self.numbers.now)) }
        requires small { length (index_from self.n self.words.now self.counts.now self.numbers.now) ≤ index_max }
        requires room { length (index_from self.n self.words.now self.counts.now self.numbers.now) ≤ length out.old }
        ensures { out.new ≡ in_front (index_from self.entry.n self.entry.words.now self.entry.counts.now self.entry.numbers.now) out.old }
    {
        let directory = lists + (self.words.len() - self.counts.len());
        let from = Spots {
            list: 0,
            word: lists,
            entry: directory,
        };
        write_words(out, from, self.words, self.counts, self.numbers);
        put_five(
            out,
            directory + 20 * self.counts.len(),
            lists as u32,
            directory as u32,
            self.counts.len() as u32,
            self.n,
            1,
        );
    }
}

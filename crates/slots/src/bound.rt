// How many intervals the lists of a question's words have together: its answer never has more.
ghost use Rattle.std.specs.Prelude.{◌≡◌, ◌+◌, ◌*◌, ◌≤◌, ◌<◌};
ghost use Rattle.limits.specs.Limits.{question_words_max, words_max};
ghost use Rattle.index.specs.Format.{word_count};
ghost use Rattle.index.specs.Sound.{Sound};
ghost use Rattle.slots.specs.Having.{ReadBy};
ghost use Rattle.slots.specs.Bound.{entries_intervals, slot_intervals, slots_intervals};

use crate::row::{Entries, Indexes, Row};
use directory::parts::interval_count;

fn entries_sum(index: &[u8], entries: Entries) -> usize
    requires sound { Sound index.now }
    requires within { entries.first + entries.count ≤ word_count index.now }
    ensures is { result ≡ entries_intervals index.now entries }
    ensures few { result ≤ words_max * 4194304 }
{
    let mut sum = 0;
    for m in 0..entries.count {
        sum += interval_count(index, entries.first + m);
    }
    sum
}

fn slot_intervals(over: Indexes<'_>, row: &Row, k: usize) -> usize
    requires read { ReadBy over.main.now over.arrivals.now row.now }
    requires slot { k < question_words_max }
    ensures is { result ≡ slot_intervals over.entry.main.now over.entry.arrivals.now row.now.ranges k }
    ensures few { result ≤ 2 * words_max * 4194304 }
{
    let of_main = entries_sum(over.main, row.ranges[2 * k]);
    let of_arrivals = entries_sum(over.arrivals, row.ranges[2 * k + 1]);
    of_main + of_arrivals
}

// Of the first `count` slots.
pub fn slots_sum(over: Indexes<'_>, row: &Row, count: usize) -> usize
    requires read { ReadBy over.main.now over.arrivals.now row.now }
    requires few { count ≤ question_words_max }
    ensures { result ≡ slots_intervals over.entry.main.now over.entry.arrivals.now row.now.ranges 0 count }
{
    let mut sum = 0;
    for k in 0..count {
        sum += slot_intervals(over, row, k);
    }
    sum
}

// The lists of a slot filled into a window.
ghost use Rattle.std.specs.Prelude.{◌≡◌, true, ◌+◌, ◌-◌, ◌*◌, ◌≤◌, ◌<◌, length};
ghost use Rattle.limits.specs.Limits.{question_words_max, record_max};
ghost use Rattle.slots.specs.Row.{HintsMoved};
ghost use Rattle.slots.specs.Having.{having, ReadBy};
ghost use Rattle.senses.specs.Senses.{Sensed};
ghost use Rattle.window.specs.Tuning.{window_most};
ghost use Rattle.fill.specs.Added.{Added};
ghost use Rattle.evaluate.specs.Evaluated.{OutFor};

use fill::fill_list;
use slots::row::{Indexes, ListAt, Row, hint_number, list_at};

// Those that one of the lists of slot k has: all of them in one loop, so that what is done with a list stands there once.
fn fill_lists(over: Indexes<'_>, row: &mut Row, k: usize, base: u32, ws: &mut [u64])
    requires lends { ReadBy over.main.now over.arrivals.now row.old }
    requires within { k < question_words_max }
    requires size { length ws.old ≤ window_most }
    requires near { base ≤ record_max + 1 }
    ensures moved { HintsMoved row.old row.new }
    ensures adds { Added (having over.entry.main.now over.entry.arrivals.now row.old k) base ws.old ws.new }
{
    let mains = row.ranges[2 * k].count;
    let count = mains + row.ranges[2 * k + 1].count;
    for n in 0..count {
        let ListAt { half, m } = list_at(mains, n);
        let j = 2 * k + half;
        let index = over.half(half);
        let kept = row.ranges[j].regions_in(index, m).kept_in(index);
        let hint = &mut row.hints[hint_number(j, m)];
        let at = kept.reading_place(*hint, base);
        *hint = fill_list(kept, at, base, ws);
    }
}

// Whether slot k is out for the records of a window of n numbers from base on, by its sense.
pub fn is_out(row: &Row, k: usize, base: u32, n: usize) -> bool
    requires slot { k < question_words_max }
    requires size { n ≤ window_most }
    requires near { base ≤ record_max + 1 }
    ensures { result ≡ true → OutFor row.now.senses k base n }
{
    let sense = row.senses[k];
    !sense.inside & (base + 64 * n as u32 <= sense.until)
}

// Those that have the word of slot k. Where the slot is out there are none.
pub fn fill_slot(over: Indexes<'_>, row: &mut Row, k: usize, base: u32, ws: &mut [u64])
    requires lends { ReadBy over.main.now over.arrivals.now row.old }
    requires within { k < question_words_max }
    requires sensed { Sensed (having over.main.now over.arrivals.now row.old) row.old.senses base }
    requires size { length ws.old ≤ window_most }
    requires near { base ≤ record_max + 1 }
    ensures moved { HintsMoved row.old row.new }
    ensures adds { Added (having over.entry.main.now over.entry.arrivals.now row.old k) base ws.old ws.new }
{
    if is_out(row, k, base, ws.len()) {
        return;
    }
    fill_lists(over, row, k, base, ws);
}

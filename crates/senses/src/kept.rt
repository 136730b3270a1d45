// What each slot's word says from a record on, and until where, kept from look to look: most senses outlast many steps.
ghost use Rattle.std.specs.Prelude.{◌*◌, ◌≤◌, ◌<◌};
ghost use Rattle.limits.specs.Limits.{question_words_max, record_max};
ghost use Rattle.list.specs.Sense.{Steady};
ghost use Rattle.index.specs.Sound.{Sound};
ghost use Rattle.slots.specs.Row.{entries_at, SlotsStay, HintsMoved};
ghost use Rattle.slots.specs.Having.{entries_have, having, EntriesIn, ReadBy};
ghost use Rattle.senses.specs.Senses.{Sensed, Known, Renewed};

use directory::sense::sense_by;
use list::END;
use list::sense::Sense;
use slots::row::{Indexes, Row, hint_number};

// What the lists of range j say of record x together: the first that has it answers. The hint of each keeps where it is read on.
fn sense_entries(index: &[u8], j: usize, x: u32, row: &mut Row) -> Sense
    requires sound { Sound index.now }
    requires range { j < 2 * question_words_max }
    requires among { EntriesIn index.now (entries_at row.old.ranges j) }
    requires near { x ≤ record_max }
    ensures moved { HintsMoved row.old row.new }
    ensures steady { Steady (entries_have index.now (entries_at row.old.ranges j)) x result.inside result.until }
{
    let count = row.ranges[j].count;
    let mut out = END;
    for m in 0..count {
        let regions = row.ranges[j].regions_in(index, m);
        let hint = hint_number(j, m);
        // By its fields: handed on whole, a sense is packed into one number and taken apart again, at each look.
        let Sense { inside, until } = sense_by(index, regions, x, hint, &mut row.hints);
        if inside {
            return Sense {
                inside: true,
                until,
            };
        }
        out = out.min(until);
    }
    Sense {
        inside: false,
        until: out,
    }
}

// What the word of slot k says of record x, by its entries in the main index and in the arrivals. A loop over the halves around that over the lists of one, and
// not one over all lists: tried, and a look takes up to 1.2 times as long.
fn look_slot(over: Indexes<'_>, row: &mut Row, k: usize, x: u32) -> Sense
    requires lends { ReadBy over.main.now over.arrivals.now row.old }
    requires within { k < question_words_max }
    requires near { x ≤ record_max }
    ensures moved { HintsMoved row.old row.new }
    ensures steady { Steady (having over.entry.main.now over.entry.arrivals.now row.old k) x result.inside result.until }
{
    let mut out = END;
    for half in 0..2 {
        let j = 2 * k + half;
        // A range without a list says nothing, and where one index is asked all of the second are so.
        if row.ranges[j].count != 0 {
            let index = over.half(half);
            let Sense { inside, until } = sense_entries(index, j, x, row);
            if inside {
                return Sense {
                    inside: true,
                    until,
                };
            }
            out = out.min(until);
        }
    }
    Sense {
        inside: false,
        until: out,
    }
}

// Renews the sense of slot k, if it ends at x or before.
fn renew_sense(over: Indexes<'_>, row: &mut Row, k: usize, x: u32)
    requires lends { ReadBy over.main.now over.arrivals.now row.old }
    requires within { k < question_words_max }
    requires near { x ≤ record_max }
    requires sensed { Sensed (having over.main.now over.arrivals.now row.old) row.old.senses x }
    ensures slots { SlotsStay row.old row.new }
    ensures renews { Renewed (having over.entry.main.now over.entry.arrivals.now row.old) x k row.old.senses row.new.senses }
{
    if x < row.senses[k].until {
        return;
    }
    let sense = look_slot(over, row, k, x);
    row.keep_sense(k, sense);
}

// Renews the senses of the first `slots` slots, so that each of them is known at x.
pub fn renew_senses(over: Indexes<'_>, row: &mut Row, slots: usize, x: u32)
    requires lends { ReadBy over.main.now over.arrivals.now row.old }
    requires within { slots ≤ question_words_max }
    requires near { x ≤ record_max }
    requires sensed { Sensed (having over.main.now over.arrivals.now row.old) row.old.senses x }
    ensures slots { SlotsStay row.old row.new }
    ensures sensed { Sensed (having over.entry.main.now over.entry.arrivals.now row.old) row.new.senses x }
    ensures known { Known (having over.entry.main.now over.entry.arrivals.now row.old) row.new.senses slots x }
{
    for k in 0..slots {
        renew_sense(over, row, k, x);
    }
}

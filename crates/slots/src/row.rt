// The row of a question: what is kept of the words of a question from step to step.
ghost use Rattle.std.specs.Prelude.{◌≡◌, ℕ, ◌+◌, ◌-◌, ◌*◌, ◌≤◌, ◌<◌, set, replicate};
ghost use Rattle.limits.specs.Limits.{question_words_max, words_max};
ghost use Rattle.index.specs.Sound.{Sound};
ghost use Rattle.directory.specs.Regions.{RegionsOf};
ghost use Rattle.slots.specs.Row.{hints_max, entries_at, Blank, no_sense, SlotsStay};
ghost use Rattle.slots.specs.Having.{half_of, EntriesIn};

use directory::parts::{Regions, regions_of};
use limits::QUESTION_WORDS_MAX;
use list::Place;
use list::sense::Sense;

// Two ranges a slot.
const RANGES: usize = 2 * QUESTION_WORDS_MAX;

// As many as a question's words have lists in two indexes, where each has one.
const HINTS: usize = 2 * QUESTION_WORDS_MAX;

// A range of entries of an index: the first, how many there are, and the regions of the first one's list, so that its entry is not read again.
#[derive(Clone, Copy)]
pub struct Entries {
    pub first: usize,
    pub count: usize,
    pub regions: Regions,
}

impl Entries {
    pub const NONE: Entries = Entries {
        first: 0,
        count: 0,
        regions: Regions {
            s: 0,
            l: 0,
            u: 0,
            end: 0,
        },
    };

    // The regions of list m of the range: those of the first are kept, and the entries behind it are read.
    pub fn regions_in(self, index: &[u8], m: usize) -> Regions
        requires sound { Sound index.now }
        requires among { EntriesIn index.now self }
        requires list { m < self.count }
        ensures { RegionsOf index.now (self.first + m) result }
    {
        if m == 0 {
            self.regions
        } else {
            regions_of(index, self.first + m)
        }
    }
}

// It is made once for a question, and lent from call to call.
#[derive(Clone, Copy)]
pub struct Row {
    // range 2 * k of slot k is in the main index, range 2 * k + 1 in the arrivals
    pub ranges: [Entries; RANGES],
    // what each slot's word says, kept from look to look
    pub senses: [Sense; QUESTION_WORDS_MAX],
    // where lists were read last
    pub hints: [Place; HINTS],
}

// At first no sense says anything.
const NO_SENSE: Sense = Sense {
    inside: false,
    until: 0,
};

impl Row {
    pub fn blank() -> Row
        ensures { Blank result.ranges }
    {
        Row {
            ranges: [Entries::NONE; RANGES],
            senses: [NO_SENSE; QUESTION_WORDS_MAX],
            hints: [Place::START; HINTS],
        }
    }

    pub fn keep_entries(&mut self, j: usize, entries: Entries)
        requires range { j < 2 * question_words_max }
        ensures kept { entries_at self.new.ranges j ≡ entries }
        ensures others { (i : ℕ) → (i ≡ j → ⊥) → entries_at self.new.ranges i ≡ entries_at self.old.ranges i }
    {
        self.ranges[j] = entries;
    }

    pub fn keep_sense(&mut self, k: usize, sense: Sense)
        requires slot { k < question_words_max }
        ensures slots { SlotsStay self.old self.new }
        ensures senses { self.new.senses ≡ set self.old.senses k sense }
    {
        self.senses[k] = sense;
    }

    pub fn forget_senses(&mut self)
        ensures slots { SlotsStay self.old self.new }
        ensures senses { self.new.senses ≡ replicate question_words_max no_sense }
    {
        self.senses.fill(NO_SENSE);
    }
}

// The number of the hint of list m of range j. With more lists than hints some share one, which costs time and no truth.
pub fn hint_number(j: usize, m: usize) -> usize
    requires range { j < 2 * question_words_max }
    requires few { m ≤ words_max }
    ensures { result < hints_max }
{
    (j + m) % HINTS
}

// The indexes that a question is asked of.
#[derive(Clone, Copy)]
pub struct Indexes<'a> {
    pub main: &'a [u8],
    pub arrivals: &'a [u8],
}

impl<'a> Indexes<'a> {
    // The index that a slot's range is of: the main one for half 0, and the arrivals for half 1.
    pub fn half(self, half: usize) -> &'a [u8]
        ensures { result.now ≡ half_of self.entry.main.now self.entry.arrivals.now half }
    {
        if half == 0 { self.main } else { self.arrivals }
    }
}

// A list of a slot: of which half it is, and its number in the range of that half.
#[derive(Clone, Copy)]
pub struct ListAt {
    pub half: usize,
    pub m: usize,
}

// List n of a slot that has so many in the main index: these come first.
pub fn list_at(mains: usize, n: usize) -> ListAt
    ensures first { n < mains → (result.half ≡ 0) × (result.m ≡ n) }
    ensures second { mains ≤ n → (result.half ≡ 1) × (result.m ≡ n - mains) }
{
    if n < mains {
        ListAt { half: 0, m: n }
    } else {
        ListAt {
            half: 1,
            m: n - mains,
        }
    }
}

// The calls behind those for C programs (Reference 8; naburain_c exports them): numbers and slices in, a struct of numbers out by value, so that a refused call writes nothing anywhere.
#![tactic(auto)]

ghost use Rattle.std.specs.Prelude.{◌≡◌};
ghost use Rattle.index.specs.Check.{check_of};
ghost use Rattle.directory.specs.Entry.{lookup_of, probe_of};
ghost use Rattle.naburain.specs.Result.{check_result, lookup_result, part_result, probe_result, write_result, answer_result};
ghost use Rattle.list.specs.Ginix.{union_of, intersection_of};
ghost use Rattle.naburain.specs.Exported.{IntervalsExported, NumbersExported, JoinExported, AskExported, BuildExported};

use list::answer::Tally;
use list::probe::Probe;
use refusal::{Refusal, number_of, value_of};

#[repr(C)]
#[derive(Clone, Copy)]
pub struct CheckedResult {
    pub refusal: u64,
    pub value: u64,
}

#[repr(C)]
#[derive(Clone, Copy)]
pub struct FoundResult {
    pub refusal: u64,
    pub value: u64,
    pub entry: u64,
}

#[repr(C)]
#[derive(Clone, Copy)]
pub struct PartResult {
    pub refusal: u64,
    pub value: u64,
    pub start: u64,
    pub length: u64,
}

#[repr(C)]
#[derive(Clone, Copy)]
pub struct ProbedResult {
    pub refusal: u64,
    pub value: u64,
    pub below: u64,
    pub overlapping: u64,
}

#[repr(C)]
#[derive(Clone, Copy)]
pub struct WrittenResult {
    pub refusal: u64,
    pub value: u64,
    pub written: u64,
}

#[repr(C)]
#[derive(Clone, Copy)]
pub struct AnsweredResult {
    pub refusal: u64,
    pub value: u64,
    pub intervals: u64,
    pub records: u64,
}

impl From<Result<(), Refusal>> for CheckedResult {
    ghost from_gives = { λ answer e. e ≡ check_result answer };

    fn from(answer: Result<(), Refusal>) -> CheckedResult {
        match answer {
            Ok(()) => CheckedResult {
                refusal: 0,
                value: 0,
            },
            Err(refusal) => CheckedResult {
                refusal: number_of(refusal),
                value: value_of(refusal),
            },
        }
    }
}

impl From<Result<usize, Refusal>> for FoundResult {
    ghost from_gives = { λ answer e. e ≡ lookup_result answer };

    fn from(answer: Result<usize, Refusal>) -> FoundResult {
        match answer {
            Ok(i) => FoundResult {
                refusal: 0,
                value: 0,
                entry: i as u64,
            },
            Err(refusal) => FoundResult {
                refusal: number_of(refusal),
                value: value_of(refusal),
                entry: 0,
            },
        }
    }
}

impl From<Result<Probe, Refusal>> for ProbedResult {
    ghost from_gives = { λ answer e. e ≡ probe_result answer };

    fn from(answer: Result<Probe, Refusal>) -> ProbedResult {
        match answer {
            Ok(counts) => ProbedResult {
                refusal: 0,
                value: 0,
                below: counts.below as u64,
                overlapping: counts.overlapping as u64,
            },
            Err(refusal) => ProbedResult {
                refusal: number_of(refusal),
                value: value_of(refusal),
                below: 0,
                overlapping: 0,
            },
        }
    }
}

impl From<Result<usize, Refusal>> for WrittenResult {
    ghost from_gives = { λ answer e. e ≡ write_result answer };

    fn from(answer: Result<usize, Refusal>) -> WrittenResult {
        match answer {
            Ok(n) => WrittenResult {
                refusal: 0,
                value: 0,
                written: n as u64,
            },
            Err(refusal) => WrittenResult {
                refusal: number_of(refusal),
                value: value_of(refusal),
                written: 0,
            },
        }
    }
}

impl From<Result<Tally, Refusal>> for AnsweredResult {
    ghost from_gives = { λ answer e. e ≡ answer_result answer };

    fn from(answer: Result<Tally, Refusal>) -> AnsweredResult {
        match answer {
            Ok(tally) => AnsweredResult {
                refusal: 0,
                value: 0,
                intervals: tally.intervals as u64,
                records: tally.records as u64,
            },
            Err(refusal) => AnsweredResult {
                refusal: number_of(refusal),
                value: value_of(refusal),
                intervals: 0,
                records: 0,
            },
        }
    }
}

// Reference 8.1: refusals 1 to 5.
pub fn naburain_check(index: &[u8]) -> CheckedResult
    ensures { result ≡ check_result (check_of index.now) }
{
    CheckedResult::from(index::check::check_index(index))
}

// Reference 8.2: refusals 1 to 5, 21.
pub fn naburain_lookup(index: &[u8], word: &[u8]) -> FoundResult
    ensures { result ≡ lookup_result (lookup_of index.now word.now) }
{
    FoundResult::from(directory::find::look_up(index, word))
}

// Reference 8.3: where the word of an entry stands in the index; refusals 1 to 5, 14.
pub fn naburain_word(index: &[u8], entry: u32) -> PartResult
    ensures { result ≡ part_result index.now entry }
{
    match directory::entry::entry_refusal(index, entry) {
        Ok(()) => {
            let found = directory::parts::sound_entry(index, entry as usize);
            PartResult {
                refusal: 0,
                value: 0,
                start: found.word_start as u64,
                length: found.word_length as u64,
            }
        }
        Err(refusal) => PartResult {
            refusal: number_of(refusal),
            value: value_of(refusal),
            start: 0,
            length: 0,
        },
    }
}

// Reference 8.4: refusals 1 to 5, 14, 20.
pub fn naburain_probe(index: &[u8], entry: u32, a: u32, b: u32) -> ProbedResult
    ensures { result ≡ probe_result (probe_of index.now entry a b) }
{
    ProbedResult::from(directory::probe::probe_entry(index, entry, a, b))
}

// Reference 8.7: refusals 15, 12.
pub fn naburain_to_intervals(numbers: &[u32], cells: &mut [u32]) -> WrittenResult
    ensures { IntervalsExported numbers.now cells.old cells.new result }
{
    WrittenResult::from(convert::to_intervals::to_intervals(numbers, cells))
}

// Reference 8.8: refusals 16, 12.
pub fn naburain_to_numbers(cells: &[u32], numbers: &mut [u32]) -> WrittenResult
    ensures { NumbersExported cells.now numbers.old numbers.new result }
{
    WrittenResult::from(convert::to_numbers::to_numbers(cells, numbers))
}

// Reference 8.5: refusals 1 to 5, 13, 14, 12.
pub fn naburain_union_scan_line(index: &[u8], entries: &[u32], cells: &mut [u32]) -> AnsweredResult
    ensures { JoinExported union_of index.now entries.now cells.old cells.new result }
{
    AnsweredResult::from(join::join::union_scan_line(index, entries, cells))
}

// Reference 8.5: refusals 1 to 5, 13, 14, 12.
pub fn naburain_union_active_interval(
    index: &[u8],
    entries: &[u32],
    cells: &mut [u32],
) -> AnsweredResult
    ensures { JoinExported union_of index.now entries.now cells.old cells.new result }
{
    AnsweredResult::from(join::join::union_active_interval(index, entries, cells))
}

// Reference 8.5: refusals 1 to 5, 13, 14, 12.
pub fn naburain_intersection_twin_heap(
    index: &[u8],
    entries: &[u32],
    cells: &mut [u32],
) -> AnsweredResult
    ensures { JoinExported intersection_of index.now entries.now cells.old cells.new result }
{
    AnsweredResult::from(join::join::intersection_twin_heap(index, entries, cells))
}

// Reference 8.5: refusals 1 to 5, 13, 14, 12.
pub fn naburain_intersection_probing(
    index: &[u8],
    entries: &[u32],
    cells: &mut [u32],
) -> AnsweredResult
    ensures { JoinExported intersection_of index.now entries.now cells.old cells.new result }
{
    AnsweredResult::from(join::join::intersection_probing(index, entries, cells))
}

// Reference 8.6: refusals 1 to 5, 22, 6, 7, 8, 9 to 11, 12.
pub fn naburain_ask(index: &[u8], rule: u32, question: &[u8], cells: &mut [u32]) -> AnsweredResult
    ensures { AskExported rule index.now question.now cells.old cells.new result }
{
    AnsweredResult::from(query::ask::ask(index, rule, question, cells))
}

// Reference 8.9: refusals 19 with 0, 17, 18, 15, 19 with 1, 12.
pub fn naburain_build(
    n: u32,
    words: &[u8],
    counts: &[u32],
    numbers: &[u32],
    bytes: &mut [u8],
) -> WrittenResult
    ensures { BuildExported n words.now counts.now numbers.now bytes.old bytes.new result }
{
    WrittenResult::from(build::build::build_index(n, words, counts, numbers, bytes))
}

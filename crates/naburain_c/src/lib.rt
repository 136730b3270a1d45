// The exports for C programs (Reference 8; include/naburain.h declares them): each is a call of the library `naburain`, with its promise.
#![tactic(auto)]

ghost use Rattle.std.specs.Prelude.{◌≡◌};
ghost use Rattle.index.specs.Check.{check_of};
ghost use Rattle.directory.specs.Entry.{lookup_of, probe_of};
ghost use Rattle.naburain.specs.Result.{check_result, lookup_result, part_result, probe_result};
ghost use Rattle.list.specs.Ginix.{union_of, intersection_of};
ghost use Rattle.naburain.specs.Exported.{IntervalsExported, NumbersExported, JoinExported, AskExported, BuildExported};

use naburain::{
    AnsweredResult, CheckedResult, FoundResult, PartResult, ProbedResult, WrittenResult,
};

// Reference 8.1: refusals 1 to 5.
#[unsafe(no_mangle)]
pub extern "C" fn naburain_check(index: &[u8]) -> CheckedResult
    ensures { result ≡ check_result (check_of index.now) }
{
    naburain::naburain_check(index)
}

// Reference 8.2: refusals 1 to 5, 21.
#[unsafe(no_mangle)]
pub extern "C" fn naburain_lookup(index: &[u8], word: &[u8]) -> FoundResult
    ensures { result ≡ lookup_result (lookup_of index.now word.now) }
{
    naburain::naburain_lookup(index, word)
}

// Reference 8.3: where the word of an entry stands in the index; refusals 1 to 5, 14.
#[unsafe(no_mangle)]
pub extern "C" fn naburain_word(index: &[u8], entry: u32) -> PartResult
    ensures { result ≡ part_result index.now entry }
{
    naburain::naburain_word(index, entry)
}

// Reference 8.4: refusals 1 to 5, 14, 20.
#[unsafe(no_mangle)]
pub extern "C" fn naburain_probe(index: &[u8], entry: u32, a: u32, b: u32) -> ProbedResult
    ensures { result ≡ probe_result (probe_of index.now entry a b) }
{
    naburain::naburain_probe(index, entry, a, b)
}

// Reference 8.7: refusals 15, 12.
#[unsafe(no_mangle)]
pub extern "C" fn naburain_to_intervals(numbers: &[u32], cells: &mut [u32]) -> WrittenResult
    ensures { IntervalsExported numbers.now cells.old cells.new result }
{
    naburain::naburain_to_intervals(numbers, cells)
}

// Reference 8.8: refusals 16, 12.
#[unsafe(no_mangle)]
pub extern "C" fn naburain_to_numbers(cells: &[u32], numbers: &mut [u32]) -> WrittenResult
    ensures { NumbersExported cells.now numbers.old numbers.new result }
{
    naburain::naburain_to_numbers(cells, numbers)
}

// Reference 8.5: refusals 1 to 5, 13, 14, 12.
#[unsafe(no_mangle)]
pub extern "C" fn naburain_union_scan_line(
    index: &[u8],
    entries: &[u32],
    cells: &mut [u32],
) -> AnsweredResult
    ensures { JoinExported union_of index.now entries.now cells.old cells.new result }
{
    naburain::naburain_union_scan_line(index, entries, cells)
}

// Reference 8.5: refusals 1 to 5, 13, 14, 12.
#[unsafe(no_mangle)]
pub extern "C" fn naburain_union_active_interval(
    index: &[u8],
    entries: &[u32],
    cells: &mut [u32],
) -> AnsweredResult
    ensures { JoinExported union_of index.now entries.now cells.old cells.new result }
{
    naburain::naburain_union_active_interval(index, entries, cells)
}

// Reference 8.5: refusals 1 to 5, 13, 14, 12.
#[unsafe(no_mangle)]
pub extern "C" fn naburain_intersection_twin_heap(
    index: &[u8],
    entries: &[u32],
    cells: &mut [u32],
) -> AnsweredResult
    ensures { JoinExported intersection_of index.now entries.now cells.old cells.new result }
{
    naburain::naburain_intersection_twin_heap(index, entries, cells)
}

// Reference 8.5: refusals 1 to 5, 13, 14, 12.
#[unsafe(no_mangle)]
pub extern "C" fn naburain_intersection_probing(
    index: &[u8],
    entries: &[u32],
    cells: &mut [u32],
) -> AnsweredResult
    ensures { JoinExported intersection_of index.now entries.now cells.old cells.new result }
{
    naburain::naburain_intersection_probing(index, entries, cells)
}

// Reference 8.6: refusals 1 to 5, 22, 6, 7, 8, 9 to 11, 12.
#[unsafe(no_mangle)]
pub extern "C" fn naburain_ask(
    index: &[u8],
    rule: u32,
    question: &[u8],
    cells: &mut [u32],
) -> AnsweredResult
    ensures { AskExported rule index.now question.now cells.old cells.new result }
{
    naburain::naburain_ask(index, rule, question, cells)
}

// Reference 8.9: refusals 19 with 0, 17, 18, 15, 19 with 1, 12.
#[unsafe(no_mangle)]
pub extern "C" fn naburain_build(
    n: u32,
    words: &[u8],
    counts: &[u32],
    numbers: &[u32],
    bytes: &mut [u8],
) -> WrittenResult
    ensures { BuildExported n words.now counts.now numbers.now bytes.old bytes.new result }
{
    naburain::naburain_build(n, words, counts, numbers, bytes)
}

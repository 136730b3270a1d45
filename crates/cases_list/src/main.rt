// Cases of lists, one a line of standard input, which is written with its answer:
//   numbers|room|..        numbers to intervals, into the first `room` of eight cells, which hold 7 before
//   intervals|room|..      intervals to numbers, likewise
//   lay|items              the bytes that the lines below lend, from nothing (script::lay has the items)
//   probe|items|p|q|a|b    [a, b] probed in the list of p singles and q pairs that the bytes are
//   join|items|room|..     the bytes as an index, whose entries are joined by each method into eight cells, as above
// In the last two the items change a copy of the bytes. A line that begins with # is a heading.
#![tactic(auto)]

use check::same;
use convert::to_intervals::to_intervals;
use convert::to_numbers::to_numbers;
use script::lay::change;
use script::output::{Output, Printed};
use script::part::field;
use script::run::run_input;
use std::fmt::Write;

mod convert_case;
mod join_case;
mod print;
mod probe_case;

fn on_bytes(out: &mut impl Write, kind: &[u8], line: &[u8], bytes: &[u8]) -> Printed {
    if same(kind, b"probe") {
        probe_case::probe(out, line, bytes)
    } else if same(kind, b"join") {
        join_case::join(out, line, bytes)
    } else {
        write!(out, " -> no such case")
    }
}

fn call(out: &mut impl Write, line: &[u8], base: &[u8], size: usize, work: &mut [u8]) -> Printed {
    let kind = field(line, 0);
    if same(kind, b"numbers") {
        convert_case::convert(out, line, to_intervals)
    } else if same(kind, b"intervals") {
        convert_case::convert(out, line, to_numbers)
    } else {
        let n = change(field(line, 1), base, size, work);
        on_bytes(out, kind, line, &work[..n])
    }
}

fn main() {
    let mut out = Output;
    let mut base = io::large_buffer();
    let mut work = io::large_buffer();
    run_input(&mut base, |line, laid, size| {
        call(&mut out, line, laid, size, &mut work)
    });
}

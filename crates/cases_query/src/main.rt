// Cases of questions, one a line of standard input, which is written with its answer:
//   read|rule|question           reading it: refusal or 0, its value or the number of words, and where each word stands
//   lay|items                    the index that the lines below ask, from nothing (script::lay has the items)
//   ask|items|rule|room|question asked of a copy of the index with the items laid over it, with the first `room` cells lent: as the asking program
//                                writes it, and `changed` where a cell that is not the answer's was written
// What stands behind these fields is a remark. A line that begins with # is a heading.
#![tactic(auto)]

use check::same;
use script::lay::change;
use script::output::{Output, Printed};
use script::part::field;
use script::run::run_input;
use std::fmt::Write;

mod ask_case;
mod read_case;

fn on_index(out: &mut impl Write, kind: &[u8], line: &[u8], index: &[u8]) -> Printed {
    if same(kind, b"ask") {
        ask_case::ask(out, line, index)
    } else {
        write!(out, "no such case")
    }
}

fn call(out: &mut impl Write, line: &[u8], base: &[u8], size: usize, work: &mut [u8]) -> Printed {
    let kind = field(line, 0);
    write!(out, " -> ")?;
    if same(kind, b"read") {
        read_case::read(out, line)
    } else {
        let n = change(field(line, 1), base, size, work);
        on_index(out, kind, line, &work[..n])
    }
}

fn main() {
    let mut out = Output;
    let mut base = io::large_buffer();
    let mut work = io::large_buffer();
    run_input(&mut base, |line, laid, size| {
        call(&mut out, line, laid, size, &mut work)
    });
}

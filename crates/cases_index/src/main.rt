// Cases of indexes, one a line of standard input, which is written with its answer:
//   lay|items                 the index that the lines below ask, from nothing (script::lay has the items)
//   check|items               these four are asked of a copy of the index with the items laid over it, and answer refusal and value
//   look|items|word           or 0 and the entry
//   word|items|entry          and the word
//   probe|items|entry|a|b     or 0, 0, how many intervals lie below and how many overlap
//   build|N|room|words|counts|numbers    into the first `room` of 256 bytes; what is refused by 17, 18 or 15 is built again beside each refusal behind it
//   bytes                     the bytes that a word may have
//   many|N|size|counts|numbers|bad       into one byte: the first `size` bytes of 65,536 words of four letters, counts and numbers of 1, bad words
// What stands behind these fields is a remark. A line that begins with # is a heading.
#![tactic(auto)]

use check::same;
use script::lay::change;
use script::output::{Output, Printed};
use script::part::field;
use script::run::run_input;
use std::fmt::Write;

mod build_case;
mod bytes_case;
mod index_case;
mod many_case;
mod outcome;

fn on_index(out: &mut impl Write, kind: &[u8], line: &[u8], index: &[u8]) -> Printed {
    if same(kind, b"check") {
        index_case::check(out, index)
    } else if same(kind, b"look") {
        index_case::look(out, line, index)
    } else if same(kind, b"word") {
        index_case::word(out, line, index)
    } else if same(kind, b"probe") {
        index_case::probe(out, line, index)
    } else {
        write!(out, "no such case")
    }
}

fn call(out: &mut impl Write, line: &[u8], base: &[u8], size: usize, work: &mut [u8]) -> Printed {
    let kind = field(line, 0);
    write!(out, " -> ")?;
    if same(kind, b"build") {
        build_case::build(out, line)
    } else if same(kind, b"bytes") {
        bytes_case::every_byte();
        Ok(())
    } else if same(kind, b"many") {
        many_case::many(out, line)
    } else {
        let n = change(field(line, 1), base, size, work);
        on_index(out, kind, line, &work[..n])
    }
}

fn main() {
    let mut out = Output;
    let mut base = io::buffer();
    let mut work = io::buffer();
    run_input(&mut base, |line, laid, size| {
        call(&mut out, line, laid, size, &mut work)
    });
}

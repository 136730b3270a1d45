// A question over an index.
use list::answer::Tally;
use refusal::Refusal;
use script::number::{number32, within};
use script::output::{Printed, Shown};
use script::part::field;
use script::text::read_text;
use std::fmt::Write;

// What stands in every cell before a question: no record's number.
const BEFORE: u32 = 4294967295;

fn print_changed(out: &mut impl Write, cells: &[u32]) -> Printed {
    if cells.iter().any(|&cell| cell != BEFORE) {
        write!(out, " changed")?;
    }
    Ok(())
}

fn print_listed(out: &mut impl Write, cells: &[u32], intervals: usize) -> Printed {
    if intervals <= cells.len() / 2 {
        let end = 2 * intervals;
        for pair in cells[..end].chunks_exact(2) {
            write!(out, " {}-{}", pair[0], pair[1])?;
        }
        print_changed(out, &cells[end..])?;
    }
    Ok(())
}

fn print_answer(out: &mut impl Write, answer: Result<Tally, Refusal>, cells: &[u32]) -> Printed {
    match answer {
        Ok(tally) => {
            write!(out, "0 0 {} {}", tally.intervals, tally.records)?;
            print_listed(out, cells, tally.intervals)
        }
        Err(refusal) => {
            write!(out, "{}", Shown(refusal))?;
            print_changed(out, cells)
        }
    }
}

// Lends as many of the cells as the line says.
pub fn ask(out: &mut impl Write, line: &[u8], index: &[u8]) -> Printed {
    let mut cells = [BEFORE; 2048];
    let mut question = [0u8; 512];
    let n = read_text(field(line, 4), &mut question);
    let room = within(field(line, 3), 2048);
    let rule = number32(field(line, 2));
    let answer = query::ask::ask(index, rule, &question[..n], &mut cells[..room]);
    print_answer(out, answer, &cells)
}

// How outcomes are written.
use list::answer::Tally;
use refusal::Refusal;
use script::output::{Printed, Shown};
use std::fmt::Write;

fn print_cells(out: &mut impl Write, cells: &[u32]) -> Printed {
    write!(out, ",")?;
    for cell in cells {
        write!(out, " {cell}")?;
    }
    Ok(())
}

pub fn print_written(
    out: &mut impl Write,
    answer: Result<usize, Refusal>,
    cells: &[u32],
) -> Printed {
    match answer {
        Ok(n) => write!(out, " wrote {n}")?,
        Err(refusal) => write!(out, " refused {}", Shown(refusal))?,
    }
    print_cells(out, cells)
}

// The intervals and the records of the list, or the refusal.
pub fn print_answer(
    out: &mut impl Write,
    answer: Result<Tally, Refusal>,
    cells: &[u32],
) -> Printed {
    match answer {
        Ok(tally) => write!(out, " listed {} {}", tally.intervals, tally.records)?,
        Err(refusal) => write!(out, " refused {}", Shown(refusal))?,
    }
    print_cells(out, cells)
}

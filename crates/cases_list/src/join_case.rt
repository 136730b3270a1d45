// Unions and intersections, by each method.
use crate::print::print_answer;
use list::answer::Tally;
use refusal::Refusal;
use script::number::{read_numbers, within};
use script::output::Printed;
use script::part::field;
use std::fmt::Write;

// Joins by one method, into the first cells that the line says.
fn join_by<F: FnOnce(&[u8], &[u32], &mut [u32]) -> Result<Tally, Refusal>>(
    out: &mut impl Write,
    line: &[u8],
    index: &[u8],
    method: F,
) -> Printed
    requires { F.IsAlwaysCallable method }
{
    let mut cells = [7u32; 8];
    let mut entries = [0u32; 20];
    let n = read_numbers(field(line, 3), &mut entries);
    let room = within(field(line, 2), 8);
    let answer = method(index, &entries[..n], &mut cells[..room]);
    print_answer(out, answer, &cells)
}

pub fn join(out: &mut impl Write, line: &[u8], index: &[u8]) -> Printed {
    write!(out, "\n  scan line:")?;
    join_by(out, line, index, join::join::union_scan_line)?;
    write!(out, "\n  active interval:")?;
    join_by(out, line, index, join::join::union_active_interval)?;
    write!(out, "\n  twin heap:")?;
    join_by(out, line, index, join::join::intersection_twin_heap)?;
    write!(out, "\n  probing:")?;
    join_by(out, line, index, join::join::intersection_probing)
}

// Numbers to intervals and back.
use crate::print::print_written;
use refusal::Refusal;
use script::number::{read_numbers, within};
use script::output::Printed;
use script::part::field;
use std::fmt::Write;

// Converts what the line lends, into the first cells that it says.
pub fn convert<F: FnOnce(&[u32], &mut [u32]) -> Result<usize, Refusal>>(
    out: &mut impl Write,
    line: &[u8],
    conversion: F,
) -> Printed
    requires { F.IsAlwaysCallable conversion }
{
    let mut cells = [7u32; 8];
    let mut lent = [0u32; 16];
    write!(out, " ->")?;
    let n = read_numbers(field(line, 2), &mut lent);
    let room = within(field(line, 1), 8);
    let answer = conversion(&lent[..n], &mut cells[..room]);
    print_written(out, answer, &cells)
}

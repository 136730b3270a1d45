// The line of an answer. Reference 10.
ghost use Rattle.std.specs.Prelude.{◌+◌, ◌≤◌, Ok, length};
ghost use Rattle.lines.specs.Line.{head_text, tally_text, shown, line_of, PutText, PutFirst};

use crate::put::{put_field, put_intervals, put_number};
use list::answer::Tally;
use refusal::Refusal;

// The cells that are lent for each answer.
pub const ANSWER_CELLS: usize = 16_384;

// Room for every line of as many cells: five numbers with a byte behind each, 21 bytes each, and 42 bytes for each interval, at most 20 digits to a number.
pub const LINE_ROOM: usize = 344_169;

// The three fields that every line has.
fn put_head(out: &mut [u8], number: u64, refusal: u64, value: u64) -> usize
    requires { length (head_text number refusal value) ≤ length out.old }
    ensures { PutText out.old 0 (head_text number refusal value) out.new result }
{
    let behind_number = put_number(out, 0, number);
    let behind_refusal = put_field(out, behind_number, refusal);
    put_field(out, behind_refusal, value)
}

// The fields of an answer.
fn put_tally(out: &mut [u8], at: usize, tally: Tally, cells: &[u32]) -> usize
    requires within { shown (Ok tally) ≤ length cells.now }
    requires room { at + length (tally_text tally cells.now) ≤ length out.old }
    ensures { PutText out.old at (tally_text tally cells.now) out.new result }
{
    let behind_intervals = put_field(out, at, tally.intervals as u64);
    let behind_records = put_field(out, behind_intervals, tally.records as u64);
    put_intervals(out, behind_records, &cells[..2 * tally.intervals])
}

// Writes the line of the answer to line `number`, whose intervals stand in the cells, and answers how long it is.
pub fn write_line(
    number: usize,
    answer: Result<Tally, Refusal>,
    cells: &[u32],
    out: &mut [u8],
) -> usize
    requires within { shown answer ≤ length cells.now }
    requires room { length (line_of number answer cells.now) ≤ length out.old }
    ensures { PutFirst out.old (line_of number answer cells.now) out.new result }
{
    match answer {
        Ok(tally) => {
            let behind_head = put_head(out, number as u64, 0, 0);
            let end = put_tally(out, behind_head, tally, cells);
            out[end] = b'\n';
            end + 1
        }
        Err(refusal) => {
            let end = put_head(
                out,
                number as u64,
                refusal::number_of(refusal),
                refusal::value_of(refusal),
            );
            out[end] = b'\n';
            end + 1
        }
    }
}

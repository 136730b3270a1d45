// A question's line: what it is answered with, and the line's bytes.
ghost use Rattle.std.specs.Prelude.{◌≡◌, ◌≤◌, length};
ghost use Rattle.io.specs.Counts.{IsPrefixLen};
ghost use Rattle.lines.specs.Line.{PutFirst};
ghost use Rattle.lines.specs.Room.{answer_cells, line_room};
ghost use Rattle.ask.specs.Output.{file_check, AnswersLine, question_line};

use index::check::check_index;
use lines::line::write_line;
use list::answer::Tally;
use query::ask::answer_question;
use question::rule::FROM_LEFT;
use refusal::Refusal;

// The most bytes of a file that are taken as an index.
pub const INDEX_MOST: usize = 65_536;

// The check of what was read of the file.
pub fn check_file(index: &[u8]) -> Result<(), Refusal>
    ensures { result ≡ file_check index.now }
{
    if INDEX_MOST < index.len() {
        Err(Refusal::IndexLength(INDEX_MOST + 1))
    } else {
        check_index(index)
    }
}

// Answers a question over an index that was checked once for all questions.
fn answer_line(
    index: &[u8],
    checked: Result<(), Refusal>,
    question: &[u8],
    cells: &mut [u32],
) -> Result<Tally, Refusal>
    requires { checked ≡ file_check index.now }
    ensures { AnswersLine index.now question.now cells.old cells.new result }
{
    checked?;
    answer_question(index, FROM_LEFT, question, cells)
}

// Writes the line of question `number`, and answers how long it is.
pub fn write_answer(
    index: &[u8],
    checked: Result<(), Refusal>,
    question: &[u8],
    number: usize,
    cells: &mut [u32],
    out: &mut [u8],
) -> usize
    requires checks { checked ≡ file_check index.now }
    requires lends { length cells.old ≡ answer_cells }
    requires room { line_room ≤ length out.old }
    ensures puts { PutFirst out.old (question_line index.now number question.now) out.new result }
    ensures counts { IsPrefixLen result out.new }
{
    let answer = answer_line(index, checked, question, cells);
    write_line(number, answer, cells, out)
}

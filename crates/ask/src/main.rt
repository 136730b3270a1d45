// Reference 10: answers the lines of standard input over the index in `index.bin`.
#![tactic(auto)]

mod answer;
mod transfer;

ghost use Rattle.std.specs.Prelude.{◌≡◌, ◌≤◌, length};
ghost use Rattle.io.specs.Counts.{IsPrefixLen};
ghost use Rattle.lines.specs.Lines.{input_most};
ghost use Rattle.lines.specs.Room.{answer_cells, line_room};
ghost use Rattle.ask.specs.Output.{file_check};

use answer::{INDEX_MOST, check_file, write_answer};
use lines::line::{ANSWER_CELLS, LINE_ROOM};
use lines::split::{INPUT_MOST, answered_end, is_past};
use parts::part_end;
use refusal::Refusal;
use std::fs::File;
use std::io;
use std::io::Write;
use std::rt::Files;
use transfer::{read_file, write_whole};

// Reads the file from its start, and answers how many bytes there are; one that is missing or cannot be read has none.
fn read_index(files: &impl Files, bytes: &mut [u8]) -> usize
    ensures { IsPrefixLen result bytes.new }
{
    let Ok(mut file) = File::open(files, "index.bin") else {
        return 0;
    };
    match read_file(&mut file, bytes) {
        Ok(count) => count,
        Err(_) => 0,
    }
}

// Answers each line in order, and whether all of them were written; `out` has room for every line.
fn answer_lines<W: Write>(
    index: &[u8],
    checked: Result<(), Refusal>,
    input: &[u8],
    cells: &mut [u32],
    out: &mut [u8],
    writer: &mut W,
) -> io::Result<bool>
    requires checks { checked ≡ file_check index.now }
    requires few { length input.now ≤ input_most }
    requires lends { length cells.old ≡ answer_cells }
    requires room { line_room ≤ length out.old }
{
    let mut number: usize = 1;
    let mut from = 0;
    // no `for`: the place moves behind the line found, not by one
    while from < input.len() {
        let end = part_end(input, from, b'\n');
        let size = write_answer(index, checked, &input[from..end], number, cells, out);
        if write_whole(writer, &out[..size])? < size {
            return Ok(false);
        }
        number += 1;
        from = end + 1;
    }
    Ok(true)
}

// The cells that are lent for each answer.
fn answer_cells() -> [u32; ANSWER_CELLS]
    ensures { answer_cells ≡ length result }
{
    [0; ANSWER_CELLS]
}

// Room for every line of as many cells.
fn line_bytes() -> [u8; LINE_ROOM]
    ensures { line_room ≡ length result }
{
    [0; LINE_ROOM]
}

// Answers the lines that are answered, says where there is more, and whether all of it was written.
fn answer_input<W: Write>(index: &[u8], input: &[u8], writer: &mut W) -> io::Result<bool> {
    let checked = check_file(index);
    let end = answered_end(input);
    let mut cells = answer_cells();
    let mut out = line_bytes();
    if !answer_lines(index, checked, &input[..end], &mut cells, &mut out, writer)? {
        return Ok(false);
    }
    if is_past(input) {
        return Ok(write_whole(writer, b"more\n")? == 5);
    }
    Ok(true)
}

// What an error says in the system's words, without the number that std puts behind them.
fn in_words(said: &str) -> &str {
    match said.split_once(" (os error ") {
        Some((words, _)) => words,
        None => said,
    }
}

// Says on standard error what could not be done, and why. What cannot be said there is not said.
fn complain(rt: &HostRuntime, what: &str, error: &io::Error) {
    let said = match format!(in rt.alloc(); "{error}") {
        Ok(why) => eprintln!(rt; "ask: {what}: {}", in_words(&why)),
        Err(_) => eprintln!(rt; "ask: {what}"),
    };
    let _ = said;
}

// Says the same where there is no error to give the reason.
fn complain_of(rt: &HostRuntime, what: &str) {
    let _ = eprintln!(rt; "ask: {what}");
}

// One byte more than is taken of each shows that there is more.
fn main(rt: HostRuntime) {
    let mut index = [0u8; INDEX_MOST + 1];
    let index_size = read_index(&rt, &mut index);
    let mut input = [0u8; INPUT_MOST + 1];
    match read_file(&mut rt.stdin(), &mut input) {
        Err(error) => complain(&rt, "cannot read the questions", &error),
        Ok(size) => {
            match answer_input(&index[..index_size], &input[..size], &mut rt.stdout()) {
                Err(error) => complain(&rt, "cannot write the answers", &error),
                Ok(false) => complain_of(&rt, "cannot write the answers"),
                Ok(true) => {}
            }
        }
    }
}

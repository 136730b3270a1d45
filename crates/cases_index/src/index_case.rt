// The calls that read an index.
use refusal::Refusal;
use script::number::number32;
use script::output::{Printed, Shown};
use script::part::field;
use script::text::read_text;
use std::fmt::Write;

fn print_checked(out: &mut impl Write, checked: Result<(), Refusal>) -> Printed {
    match checked {
        Ok(()) => write!(out, "0 0"),
        Err(refusal) => write!(out, "{}", Shown(refusal)),
    }
}

pub fn check(out: &mut impl Write, index: &[u8]) -> Printed {
    print_checked(out, index::check::check_index(index))
}

pub fn look(out: &mut impl Write, line: &[u8], index: &[u8]) -> Printed {
    let mut word = [0u8; 64];
    let n = read_text(field(line, 2), &mut word);
    match directory::find::look_up(index, &word[..n]) {
        Ok(i) => write!(out, "0 {i}"),
        Err(refusal) => write!(out, "{}", Shown(refusal)),
    }
}

// The word is bytes, which `write!` does not take.
pub fn word(out: &mut impl Write, line: &[u8], index: &[u8]) -> Printed {
    let entry = number32(field(line, 2));
    print_checked(out, directory::entry::entry_refusal(index, entry))?;
    write!(out, " \"")?;
    io::write_all(1, directory::entry::entry_word(index, entry));
    write!(out, "\"")
}

pub fn probe(out: &mut impl Write, line: &[u8], index: &[u8]) -> Printed {
    let entry = number32(field(line, 2));
    let a = number32(field(line, 3));
    let b = number32(field(line, 4));
    match directory::probe::probe_entry(index, entry, a, b) {
        Ok(counts) => write!(out, "0 0 {} {}", counts.below, counts.overlapping),
        Err(refusal) => write!(out, "{}", Shown(refusal)),
    }
}

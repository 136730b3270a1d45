// How a build's outcome is written: the answer, and whether the bytes behind what was written, or all after a refusal, are as they were.
use refusal::Refusal;
use script::output::{Printed, Shown};
use std::fmt::Write;

// What stands in every byte before a build.
pub const BEFORE: u8 = 165;

// Whether the bytes from a place on are what they were before the call.
fn print_kept(out: &mut impl Write, bytes: &[u8], from: usize) -> Printed {
    if bytes.iter().skip(from).all(|&b| b == BEFORE) {
        write!(out, ", kept")
    } else {
        write!(out, ", changed")
    }
}

// The bytes of an index that was written follow in hexadecimal, straight to standard output, as `out` is: `{:02x}` writes a byte below 16 in two pieces.
fn print_wrote(out: &mut impl Write, bytes: &[u8], size: usize) -> Printed {
    write!(out, "wrote {size}")?;
    print_kept(out, bytes, size)?;
    if size <= bytes.len() {
        write!(out, ": ")?;
        for &b in &bytes[..size] {
            io::print_hex(1, b as u64, 2);
        }
    }
    Ok(())
}

pub fn print_outcome(
    out: &mut impl Write,
    answer: Result<usize, Refusal>,
    bytes: &[u8],
) -> Printed {
    match answer {
        Ok(size) => print_wrote(out, bytes, size),
        Err(refusal) => {
            write!(out, "refused {}", Shown(refusal))?;
            print_kept(out, bytes, 0)
        }
    }
}

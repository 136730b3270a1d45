// A build, and those beside each refusal behind its own.
ghost use Rattle.std.specs.Prelude.{◌≤◌, length};

use crate::outcome::{BEFORE, print_outcome};
use refusal::Refusal;
use script::number::{number32, read_numbers, within};
use script::output::Printed;
use script::part::field;
use script::text::read_text;
use std::fmt::Write;

// What is lent to a build.
#[derive(Clone, Copy)]
struct Lent<'a> {
    n: u32,
    words: &'a [u8],
    counts: &'a [u32],
    numbers: &'a [u32],
}

// Builds into the first `room` of 256 bytes, and looks at all of them.
fn build_in(
    out: &mut impl Write,
    room: usize,
    lent: Lent<'_>,
) -> Result<Result<usize, Refusal>, std::fmt::Error>
    requires { room ≤ 256 }
{
    let mut bytes = [BEFORE; 256];
    let answer = build::build::build_index(
        lent.n,
        lent.words,
        lent.counts,
        lent.numbers,
        &mut bytes[..room],
    );
    print_outcome(out, answer, &bytes)?;
    Ok(answer)
}

fn beside(out: &mut impl Write, refusal: &str, room: usize, lent: Lent<'_>) -> Printed
    requires { room ≤ 256 }
{
    write!(out, "; beside {refusal}: ")?;
    let _ = build_in(out, room, lent)?;
    Ok(())
}

// Beside 18 no counts are lent, which are too few; beside 15 N is 0, which makes every number too large; and beside 12 there is no room.
fn run(out: &mut impl Write, room: usize, lent: Lent<'_>) -> Printed
    requires { room ≤ 256 }
{
    let few = Lent {
        counts: &[],
        ..lent
    };
    let large = Lent { n: 0, ..lent };
    match build_in(out, room, lent)? {
        Err(Refusal::BuildWord(_)) => {
            beside(out, "18", 256, few)?;
            beside(out, "15", 256, large)?;
            beside(out, "12", 0, lent)?;
            beside(out, "all", 0, Lent { n: 0, ..few })
        }
        Err(Refusal::BuildCount(_)) => {
            beside(out, "15", 256, large)?;
            beside(out, "12", 0, lent)?;
            beside(out, "all", 0, large)
        }
        Err(Refusal::Number(_)) => beside(out, "12", 0, lent),
        _ => Ok(()),
    }
}

// No more than 128 bytes of words, and 16 counts and numbers.
pub fn build(out: &mut impl Write, line: &[u8]) -> Printed {
    let mut words = [0u8; 128];
    let mut counts = [0u32; 16];
    let mut numbers = [0u32; 16];
    let n = number32(field(line, 1));
    let room = within(field(line, 2), 256);
    let size = read_text(field(line, 3), &mut words);
    let count = read_numbers(field(line, 4), &mut counts);
    let total = read_numbers(field(line, 5), &mut numbers);
    let lent = Lent {
        n,
        words: &words[..size],
        counts: &counts[..count],
        numbers: &numbers[..total],
    };
    run(out, room, lent)
}

// Probing a list as an index keeps it.
ghost use Rattle.std.specs.Prelude.{◌≡◌, length};

use limits::RECORD_MAX;
use list::Kept;
use script::number::{number32, within};
use script::output::Printed;
use script::part::field;
use std::fmt::Write;

// The intervals wholly below [a, b] and those that overlap it, where there is such a range and a kept list.
fn probe_parts(out: &mut impl Write, kept: Kept<'_>, a: u32, b: u32) -> Printed
    requires { length kept.lower.now ≡ length kept.upper.now }
{
    if RECORD_MAX < b || b < a {
        return Ok(());
    }
    if kept.is_kept(RECORD_MAX) {
        let found = kept.probe(a, b);
        write!(out, " -> {} {}", found.below, found.overlapping)?;
    }
    Ok(())
}

pub fn probe(out: &mut impl Write, line: &[u8], bytes: &[u8]) -> Printed {
    let a = number32(field(line, 4));
    let b = number32(field(line, 5));
    let lower = 4 * within(field(line, 2), 64);
    let upper = lower + 4 * within(field(line, 3), 64);
    let end = upper + (upper - lower);
    if bytes.len() < end {
        return Ok(());
    }
    let kept = Kept {
        singles: &bytes[..lower],
        lower: &bytes[lower..upper],
        upper: &bytes[upper..end],
    };
    probe_parts(out, kept, a, b)
}

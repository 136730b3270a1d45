// Reference 9.1, rows 7 and 8: faults of a byte and of a run, which are asked of the whole question before it is read.
ghost use Rattle.std.specs.Prelude.{◌≡◌, length};
ghost use Rattle.refusal.specs.First.{first};
ghost use Rattle.question.specs.Reading.{is_foreign, foreign_at, long_at};

use super::token::run_end;
use limits::WORD_MAX;

// Whether a byte has no place in a question.
fn is_foreign(b: u8) -> bool
    ensures { result ≡ is_foreign b }
{
    !(word::word_byte(b) | (b == 32) | (b == 40) | (b == 41))
}

pub fn first_foreign(s: &[u8]) -> Option<usize>
    ensures { result ≡ first (foreign_at s.now) (length s.now) }
{
    s.iter().position(|&b| is_foreign(b))
}

// The start of the first run of more than 32 word bytes; each run is passed once.
pub fn first_long(s: &[u8]) -> Option<usize>
    ensures { result ≡ first (long_at s.now) (length s.now) }
{
    let mut i = 0;
    // no `for`: the place moves by the run found, not by one
    while i < s.len() {
        let end = run_end(s, i);
        if end - i > WORD_MAX {
            return Some(i);
        }
        if s.len() <= end {
            return None;
        }
        i = end + 1;
    }
    None
}

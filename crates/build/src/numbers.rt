// The record numbers of all words.
ghost use Rattle.std.specs.Prelude.{◌≡◌, length};
ghost use Rattle.build.specs.Build.{number_fault};
ghost use Rattle.build.specs.Passes.{Fair};

use convert::numbers::first_bad_number;

// Reference 9.1, row 15: the first bad number, with the limit n.
pub fn check_numbers(n: u32, counts: &[u32], numbers: &[u32]) -> Option<usize>
    requires { Fair counts.now (length numbers.now) }
    ensures { result ≡ number_fault n counts.now (length counts.now) numbers.now }
{
    let mut start = 0;
    for &count in counts {
        let end = start + count as usize;
        if let Some(k) = first_bad_number(&numbers[start..end], n) {
            return Some(start + k);
        }
        start = end;
    }
    None
}

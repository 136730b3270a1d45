// How much the lists take.
ghost use Rattle.std.specs.Prelude.{◌≡◌, length};
ghost use Rattle.limits.specs.Limits.{record_max};
ghost use Rattle.layout.specs.Layout.{lists_bytes};
ghost use Rattle.build.specs.Lent.{lists_from};
ghost use Rattle.build.specs.Passes.{Lists};

use layout::size::{count_kept, list_size};

// How many bytes all lists take.
pub fn lists_size(counts: &[u32], numbers: &[u32]) -> usize
    requires { Lists counts.now numbers.now }
    ensures { result ≡ length (lists_bytes record_max (lists_from counts.now numbers.now)) }
{
    let mut size: usize = 0;
    let mut start = 0;
    for &count in counts {
        let end = start + count as usize;
        size += list_size(count_kept(&numbers[start..end]));
        start = end;
    }
    size
}

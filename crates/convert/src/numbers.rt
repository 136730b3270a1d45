// Reference 9.1, row 15: record numbers in order.
ghost use Rattle.std.specs.Prelude.{◌≡◌, ◌<◌, length};
ghost use Rattle.refusal.specs.First.{first};
ghost use Rattle.convert.specs.Convert.{bad_number};

// The first number that the row refuses, by a limit of the caller.
pub fn first_bad_number(numbers: &[u32], limit: u32) -> Option<usize>
    ensures { result ≡ first (bad_number limit numbers.now) (length numbers.now) }
{
    let mut before: u32 = 0;
    for (i, &x) in numbers.iter().enumerate() {
        if x <= before || limit < x {
            return Some(i);
        }
        before = x;
    }
    None
}

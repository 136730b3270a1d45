// Texts put into lent bytes, one behind the other: each call answers the place behind what it put.
ghost use Rattle.std.specs.Prelude.{◌+◌, ◌≤◌, length};
ghost use Rattle.lines.specs.Line.{numeral, field, interval_text, intervals_text, PutText};

fn put_bytes(out: &mut [u8], at: usize, text: &[u8]) -> usize
    requires { at + length text.now ≤ length out.old }
    ensures { PutText out.old at text.now out.new result }
{
    let end = at + text.len();
    out[at..end].copy_from_slice(text);
    end
}

// The number in the fewest decimal digits, by `io::decimal` and not by Display, which writes into a String: nothing here allocates.
pub fn put_number(out: &mut [u8], at: usize, n: u64) -> usize
    requires { at + length (numeral n) ≤ length out.old }
    ensures { PutText out.old at (numeral n) out.new result }
{
    let mut digits = [0u8; 20];
    let count = io::decimal(n, &mut digits);
    put_bytes(out, at, &digits[..count])
}

// A field that is not the first: the number behind a space.
pub fn put_field(out: &mut [u8], at: usize, n: u64) -> usize
    requires { at + length (field n) ≤ length out.old }
    ensures { PutText out.old at (field n) out.new result }
{
    out[at] = b' ';
    put_number(out, at + 1, n)
}

fn put_interval(out: &mut [u8], at: usize, l: u32, u: u32) -> usize
    requires { at + length (interval_text l u) ≤ length out.old }
    ensures { PutText out.old at (interval_text l u) out.new result }
{
    let dash = put_field(out, at, l as u64);
    out[dash] = b'-';
    put_number(out, dash + 1, u as u64)
}

// Each interval of the cells.
pub fn put_intervals(out: &mut [u8], at: usize, cells: &[u32]) -> usize
    requires { at + length (intervals_text cells.now) ≤ length out.old }
    ensures { PutText out.old at (intervals_text cells.now) out.new result }
{
    let mut k = at;
    for pair in cells.chunks_exact(2) {
        k = put_interval(out, k, pair[0], pair[1]);
    }
    k
}

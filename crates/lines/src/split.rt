// How much of an input is answered. Reference 10.
ghost use Rattle.std.specs.Prelude.{◌≡◌, ◌≤◌, length};
ghost use Rattle.lines.specs.Lines.{whole_end, input_most, is_past, answered_end};

// The most bytes of input that are answered.
pub const INPUT_MOST: usize = 65_536;

// The place behind the last byte 10 among the first `most` bytes, 0 where there is none.
fn whole_end(input: &[u8], most: usize) -> usize
    requires { most ≤ length input.now }
    ensures place { result ≡ whole_end most input.now }
    ensures within { result ≤ most }
{
    match input[..most].iter().rposition(|&b| b == b'\n') {
        Some(last) => last + 1,
        None => 0,
    }
}

// Whether the input goes past what is answered.
pub fn is_past(input: &[u8]) -> bool
    ensures { result ≡ is_past input.now }
{
    INPUT_MOST < input.len()
}

// Where the answered bytes end.
pub fn answered_end(input: &[u8]) -> usize
    ensures place { result ≡ answered_end input.now }
    ensures within { result ≤ length input.now }
    ensures few { result ≤ input_most }
{
    if is_past(input) {
        whole_end(input, INPUT_MOST)
    } else {
        input.len()
    }
}

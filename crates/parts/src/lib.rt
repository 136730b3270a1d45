// Parts of bytes, each of which ends before a byte b: the lines of an input, the fields of a line, the words that are lent to a build.
#![tactic(auto)]

ghost use Rattle.std.specs.Prelude.{◌≡◌, ◌+◌, ◌≤◌, max, length, drop};
ghost use Rattle.parts.specs.Part.{part_length};

// Where the part from `from` on ends: at the next b, or at the end.
pub fn part_end(s: &[u8], from: usize, b: u8) -> usize
    ensures place { result ≡ from + part_length b (drop from s.now) }
    ensures onward { from ≤ result }
    ensures within { result ≤ max from (length s.now) }
{
    for i in from..s.len() {
        if s[i] == b {
            return i;
        }
    }
    s.len().max(from)
}

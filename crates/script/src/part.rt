// Parts of a line: what stands before a byte, and what behind it.
ghost use Rattle.std.specs.Prelude.{◌≡◌};
ghost use Rattle.script.specs.Part.{front_of, behind_of, field_of};

use parts::part_end;

// What stands before the first b, or everything.
pub fn front<'a>(s: &'a [u8], b: u8) -> &'a [u8]
    ensures { result.now ≡ front_of b s.now }
{
    let end = part_end(s, 0, b);
    &s[..end]
}

// What stands behind the first b, or nothing.
pub fn behind<'a>(s: &'a [u8], b: u8) -> &'a [u8]
    ensures { result.now ≡ behind_of b s.now }
{
    let end = part_end(s, 0, b);
    if end < s.len() {
        let start = end + 1;
        return &s[start..];
    }
    &s[end..]
}

// Field k of a line, from 0; nothing where there are fewer.
pub fn field<'a>(line: &'a [u8], k: usize) -> &'a [u8]
    ensures { result.now ≡ field_of k line.now }
{
    let mut rest = line;
    for _ in 0..k {
        rest = behind(rest, b'|');
    }
    front(rest, b'|')
}

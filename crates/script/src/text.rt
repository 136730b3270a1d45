// Texts: bytes as they stand, but for `/`, which is byte 10, and `\` before two hexadecimal digits, which are one byte.
ghost use Rattle.std.specs.Prelude.{◌≡◌, ◌<◌, length};
ghost use Rattle.io.specs.Counts.{IsPrefixLen};
ghost use Rattle.script.specs.Text.{plain, nibble, text_of, Spells};
ghost use Rattle.script.specs.Reads.{Lays};

// A byte of a text, and where the next one is spelled.
#[derive(Clone, Copy)]
struct Spelled {
    byte: u8,
    next: usize,
}

fn plain_byte(b: u8) -> u8
    ensures { result ≡ plain b }
{
    if b == b'/' { 10 } else { b }
}

// A hexadecimal digit's number: a letter is 9 above its last four bits.
fn nibble_of(b: u8) -> u8
    ensures value { result ≡ nibble b }
    ensures small { result < 16 }
{
    (b % 16 + b / 64 * 9) % 16
}

fn byte_at(s: &[u8], i: usize) -> Spelled
    requires { i < length s.now }
    ensures { Spells s.now i result.byte result.next }
{
    if 2 < s.len() - i {
        if s[i] == 92 {
            return Spelled {
                byte: 16 * nibble_of(s[i + 1]) + nibble_of(s[i + 2]),
                next: i + 3,
            };
        }
    }
    Spelled {
        byte: plain_byte(s[i]),
        next: i + 1,
    }
}

// Puts the bytes that a text says into `out` from `from` on, as far as there is room: where they end.
pub fn put_text(s: &[u8], out: &mut [u8], from: usize) -> usize
    ensures { Lays (text_of s.now) out.old from out.new result }
{
    let mut at = from;
    let mut i = 0;
    // no `for`: a byte is spelled by one byte of the text, or by three
    while i < s.len() {
        if out.len() <= at {
            return at;
        }
        let one = byte_at(s, i);
        out[at] = one.byte;
        at += 1;
        i = one.next;
    }
    at
}

// The bytes that a text says, as many as there is room for: how many that is.
pub fn read_text(s: &[u8], out: &mut [u8]) -> usize
    ensures reads { Lays (text_of s.now) out.old 0 out.new result }
    ensures counts { IsPrefixLen result out.new }
{
    put_text(s, out, 0)
}

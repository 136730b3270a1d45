// Numbers in decimal digits, and lists of them.
ghost use Rattle.std.specs.Prelude.{◌≡◌, ◌<◌, ◌%◌, min};
ghost use Rattle.io.specs.Counts.{IsPrefixLen};
ghost use Rattle.script.specs.Number.{no_digit, number_in, field_numbers};
ghost use Rattle.script.specs.Reads.{Lays};

use parts::part_end;

fn no_digit(b: u8) -> bool
    ensures { result ≡ no_digit b }
{
    !b.is_ascii_digit()
}

fn digit(b: u8) -> u64
    ensures value { result ≡ b % 16 }
    ensures small { result < 16 }
{
    (b % 16) as u64
}

// The number that the digits at the front spell, of which the last 18 count.
pub fn number(s: &[u8]) -> u64
    ensures value { result ≡ number_in s.now }
    ensures small { result < 1000000000000000000 }
{
    let mut value: u64 = 0;
    for &b in s {
        if no_digit(b) {
            return value;
        }
        value = (10 * value + digit(b)) % 1_000_000_000_000_000_000;
    }
    value
}

// The same at 32 bits.
pub fn number32(s: &[u8]) -> u32
    ensures { result ≡ number_in s.now % 4294967296 }
{
    (number(s) % 4_294_967_296) as u32
}

// The same, but no more than `most`.
pub fn within(s: &[u8], most: usize) -> usize
    ensures { result ≡ min (number_in s.now) most }
{
    most.min(number(s) as usize)
}

// The numbers of a field, with a space between, at 32 bits and as many as there is room for: how many that is.
pub fn read_numbers(s: &[u8], out: &mut [u32]) -> usize
    ensures reads { Lays (field_numbers s.now) out.old 0 out.new result }
    ensures counts { IsPrefixLen result out.new }
{
    let mut count = 0;
    let mut at = 0;
    // no `for`: the place goes on behind the part that ends next, and std's `split` has one more part behind a last space
    while at < s.len() {
        if out.len() <= count {
            return count;
        }
        let end = part_end(s, at, b' ');
        out[count] = number32(&s[at..end]);
        count += 1;
        at = end + 1;
    }
    count
}

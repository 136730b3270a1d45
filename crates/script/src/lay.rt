// Bytes laid out by a text of items with a space between: `a=v,v,..` puts cells of four bytes from byte a on, where `v*k+d` is k cells from v on, each
// d more than the one before; `a"t"` puts the text t at byte a; `#n` says how many bytes there are.
ghost use Rattle.std.specs.Prelude.{◌≡◌, ◌+◌, ◌≤◌, length};
ghost use Rattle.io.specs.Counts.{IsPrefixLen};

use crate::number::{number, number32, within};
use crate::part::{behind, front};
use crate::text::put_text;
use parts::part_end;

// Puts k cells from `from` on, as far as there is room: where they end.
fn put_run(bytes: &mut [u8], from: usize, first: u32, step: u32, k: u64) -> usize
    ensures { length bytes.new ≡ length bytes.old }
{
    let mut at = from;
    let mut value = first;
    for _ in 0..k {
        if bytes.len().saturating_sub(at) < 4 {
            return at;
        }
        bytes[at..at + 4].copy_from_slice(&value.to_le_bytes());
        at += 4;
        value = value.wrapping_add(step);
    }
    at
}

// How many cells a part says.
fn times(part: &[u8]) -> u64 {
    let said = behind(part, b'*');
    if 0 < said.len() { number(said) } else { 1 }
}

fn put_cells(s: &[u8], bytes: &mut [u8], from: usize)
    ensures { length bytes.new ≡ length bytes.old }
{
    let mut place = from;
    let mut at = 0;
    // no `for`: the place goes on behind the part that ends next, and std's `split` has one more part behind a last comma
    while at < s.len() {
        let end = part_end(s, at, b',');
        let part = &s[at..end];
        place = put_run(
            bytes,
            place,
            number32(part),
            number32(behind(part, b'+')),
            times(part),
        );
        at = end + 1;
    }
}

fn put_item(item: &[u8], bytes: &mut [u8])
    ensures { length bytes.new ≡ length bytes.old }
{
    let place = number32(item) as usize;
    put_cells(behind(front(item, b'"'), b'='), bytes, place);
    put_text(front(behind(item, b'"'), b'"'), bytes, place);
}

// Lays the items into the bytes; an empty item lays nothing.
fn lay(s: &[u8], bytes: &mut [u8])
    ensures { length bytes.new ≡ length bytes.old }
{
    for item in s.split(|&b| b == b' ') {
        put_item(item, bytes);
    }
}

// The number of bytes that the items say, or the given one; never more than `most`.
fn laid_length(s: &[u8], given: usize, most: usize) -> usize
    ensures { result ≤ most }
{
    let said = behind(s, b'#');
    if 0 < said.len() {
        within(said, most)
    } else {
        given.min(most)
    }
}

// Copies as much as both hold.
fn copy(from: &[u8], to: &mut [u8])
    ensures { length to.new ≡ length to.old }
{
    let size = from.len().min(to.len());
    to[..size].copy_from_slice(&from[..size]);
}

// Lays the items over a copy of `base`, of which `size` bytes count: how many bytes count then. Which bytes the items change is not promised; the
// expected output of the case programs holds it.
pub fn change(items: &[u8], base: &[u8], size: usize, work: &mut [u8]) -> usize
    ensures counts { IsPrefixLen result work.new }
    ensures same { length work.new ≡ length work.old }
{
    copy(base, work);
    lay(items, work);
    laid_length(items, size, work.len())
}

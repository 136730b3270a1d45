// Writing one word: its list, its bytes and its entry in the directory.
ghost use Rattle.std.specs.Prelude.{◌≡◌, ◌≤◌, length};
ghost use Rattle.convert.specs.Convert.{bad_number_of, intervals_of};
ghost use Rattle.list.specs.Front.{in_front};
ghost use Rattle.layout.specs.Laid.{entered, entered_to, EnteredWithin};

use crate::cells::put_five;
use crate::kept::write_list;
use crate::size::{count_kept, list_size};

// Where the next list, the next word's bytes and the next entry belong.
#[derive(Clone, Copy)]
pub struct Spots {
    pub list: usize,
    pub word: usize,
    pub entry: usize,
}

// Writes bytes from byte 0; those behind them stay. They are copied one by one, since the library's method makes the archive call `memmove`, which it needs for
// nothing else.
fn write_bytes(out: &mut [u8], bytes: &[u8])
    requires { length bytes.now ≤ length out.old }
    ensures { out.new ≡ in_front bytes.now out.old }
{
    for (i, &b) in bytes.iter().enumerate() {
        out[i] = b;
    }
}

// Writes a word's list into the tail of the output that begins with it, then the word's bytes and its entry; answers where those of the next word belong.
pub fn write_word(out: &mut [u8], at: Spots, word: &[u8], numbers: &[u32]) -> Spots
    requires good { bad_number_of numbers.now ≡ None }
    requires within { EnteredWithin at word.now (intervals_of numbers.now) (length out.old) }
    ensures enters { out.new ≡ entered out.old at word.now (intervals_of numbers.now) }
    ensures moves { result ≡ entered_to at word.now (intervals_of numbers.now) }
{
    let kept = count_kept(numbers);
    let list = at.list;
    let bytes = at.word;
    write_list(&mut out[list..], numbers, kept);
    write_bytes(&mut out[bytes..], word);
    put_five(
        out,
        at.entry,
        bytes as u32,
        word.len() as u32,
        list as u32,
        kept.singles as u32,
        kept.pairs as u32,
    );
    Spots {
        list: list + list_size(kept),
        word: bytes + word.len(),
        entry: at.entry + 20,
    }
}

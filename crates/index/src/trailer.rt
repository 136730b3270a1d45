// The trailer of an index, and how many words it says there are.
ghost use Rattle.std.specs.Prelude.{◌≡◌, ◌≤◌, length};
ghost use Rattle.limits.specs.Limits.{index_min, words_max};
ghost use Rattle.index.specs.Format.{word_count};
ghost use Rattle.index.specs.Sound.{Sound};
ghost use Rattle.index.specs.Read.{TrailerOf};

// How many words a sound index has.
pub fn word_count(index: &[u8]) -> usize
    requires { Sound index.now }
    ensures is { result ≡ word_count index.now }
    ensures few { result ≤ words_max }
{
    let trailer = crate::trailer::read_trailer(index);
    trailer.count
}

// Reference 4.2: the last 20 bytes, five cells, from which a reader starts.
#[derive(Clone, Copy)]
pub struct Trailer {
    // W, the byte at which the words start: all lists stand before it
    pub words: usize,
    // D, the byte at which the directory starts
    pub directory: usize,
    // n, how many words there are, and so how many entries
    pub count: usize,
    // N, the highest record that may be listed
    pub highest: u32,
    pub edition: u32,
}

pub fn read_trailer(index: &[u8]) -> Trailer
    requires { index_min ≤ length index.now }
    ensures { TrailerOf index.now result }
{
    let end = index.len();
    Trailer {
        words: list::cell::cell_at(index, end - 20) as usize,
        directory: list::cell::cell_at(index, end - 16) as usize,
        count: list::cell::cell_at(index, end - 12) as usize,
        highest: list::cell::cell_at(index, end - 8),
        edition: list::cell::cell_at(index, end - 4),
    }
}

// One entry of the directory. Reference 4.3.
ghost use Rattle.std.specs.Prelude.{◌≡◌, ◌+◌, ◌*◌, ◌<◌};
ghost use Rattle.index.specs.Format.{entry_size};
ghost use Rattle.index.specs.Read.{Framed, EntryCells};

#[derive(Clone, Copy)]
pub struct Entry {
    pub word_start: usize,
    pub word_length: usize,
    // S, the singles, stands from there; L and U, the bounds of the pairs, follow
    pub list_start: usize,
    pub singles: usize,
    pub pairs: usize,
}

// How many bytes an entry takes: the walk asks by edition, so that one with longer entries changes nothing else.
pub fn entry_size(edition: u32) -> usize
    ensures { result ≡ entry_size edition }
{
    20
}

// Where entry i starts.
pub fn entry_place(trailer: crate::trailer::Trailer, i: usize) -> usize
    requires directory { trailer.directory < 4294967296 }
    requires number { i < 4294967296 }
    ensures { result ≡ trailer.directory + entry_size trailer.edition * i }
{
    trailer.directory + entry_size(trailer.edition) * i
}

pub fn read_entry(index: &[u8], trailer: crate::trailer::Trailer, i: usize) -> Entry
    requires framed { Framed index.now trailer }
    requires number { i < trailer.count }
    ensures { EntryCells index.now i result }
{
    let at = entry_place(trailer, i);
    Entry {
        word_start: list::cell::cell_at(index, at) as usize,
        word_length: list::cell::cell_at(index, at + 4) as usize,
        list_start: list::cell::cell_at(index, at + 8) as usize,
        singles: list::cell::cell_at(index, at + 12) as usize,
        pairs: list::cell::cell_at(index, at + 16) as usize,
    }
}

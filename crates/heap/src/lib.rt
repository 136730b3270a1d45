// A heap of numbers, the first `size` of some cells: the least is cell 0, and below cell i stand the cells 2i + 1 and 2i + 2. The functions are over
// lent cells, and `Heap` over an array of its own. It is no BinaryHeap, since nothing here allocates.
#![tactic(auto)]

ghost use Rattle.std.specs.Prelude.{◌≡◌, ◌+◌, ◌-◌, ◌*◌, ◌≤◌, ◌<◌, length, get_or, take};
ghost use Rattle.heap.specs.Heap.{IsHeap, Pushed, Replaced, Dropped, Lesser};

/// A heap of at most `N` numbers.
#[derive(Clone, Copy)]
pub struct Heap<const N: usize> {
    pub cells: [u32; N],
    pub size: usize,
    pub ghost long: { length cells ≡ N },
    pub ghost within: { size ≤ N },
    pub ghost ordered: { IsHeap (take size cells) },
}

impl<const N: usize> Heap<N> {
    pub fn new() -> Self
        ensures { result.size ≡ 0 }
    {
        Heap {
            cells: [0; N],
            size: 0,
        }
    }

    // Nothing is left in it.
    pub fn clear(&mut self)
        ensures { self.new.size ≡ 0 }
    {
        self.size = 0;
    }

    pub fn least(&self) -> u32
        requires some { 0 < self.now.size }
        ensures { result ≡ get_or self.now.cells 0 0 }
    {
        self.cells[0]
    }

    pub fn push(&mut self, x: u32)
        requires room { self.old.size < N }
        ensures more { self.new.size ≡ self.old.size + 1 }
        ensures pushes { Pushed self.old.size x self.old.cells self.new.cells }
    {
        push(&mut self.cells, self.size, x);
        self.size += 1;
    }

    // Puts x in the place of the least.
    pub fn replace_least(&mut self, x: u32)
        requires some { 0 < self.old.size }
        ensures keeps { self.new.size ≡ self.old.size }
        ensures replaces { Replaced self.old.size x self.old.cells self.new.cells }
    {
        replace_least(&mut self.cells, self.size, x);
    }

    // Takes the least away: the last number comes in its place.
    pub fn drop_least(&mut self)
        requires some { 0 < self.old.size }
        ensures fewer { self.new.size ≡ self.old.size - 1 }
        ensures drops { Dropped self.old.size self.old.cells self.new.cells }
    {
        drop_least(&mut self.cells, self.size);
        self.size -= 1;
    }
}

// Puts x in, from the end: what is greater on the way to the front moves down a cell.
pub fn push(cells: &mut [u32], size: usize, x: u32)
    requires room { size < length cells.old }
    requires ordered { IsHeap (take size cells.old) }
    ensures { Pushed size x cells.old cells.new }
{
    let mut i = size;
    // no `for`: the place goes up the heap, and halves with each turn
    while 0 < i {
        let above = (i - 1) / 2;
        let moved = cells[above];
        if moved <= x {
            cells[i] = x;
            return;
        }
        cells[i] = moved;
        i = above;
    }
    cells[i] = x;
}

// The cell of the lesser of the numbers below cell i, where there is one.
fn lesser_below(cells: &[u32], size: usize, i: usize) -> usize
    requires within { size ≤ length cells.now }
    requires below { 2 * i + 1 < size }
    ensures { Lesser size i cells.now result }
{
    let left = 2 * i + 1;
    let right = left + 1;
    if right < size {
        if cells[right] < cells[left] {
            return right;
        }
    }
    left
}

// Puts x in the place of the least, from the front: what is less on the way to the end moves up a cell.
pub fn replace_least(cells: &mut [u32], size: usize, x: u32)
    requires some { 0 < size }
    requires within { size ≤ length cells.old }
    requires ordered { IsHeap (take size cells.old) }
    ensures { Replaced size x cells.old cells.new }
{
    let mut i = 0;
    // no `for`: the place goes down the heap, to the lesser of two cells
    while 2 * i + 1 < size {
        let below = lesser_below(cells, size, i);
        let moved = cells[below];
        if x <= moved {
            cells[i] = x;
            return;
        }
        cells[i] = moved;
        i = below;
    }
    cells[i] = x;
}

// Takes the least away: the last number comes in its place.
pub fn drop_least(cells: &mut [u32], size: usize)
    requires some { 0 < size }
    requires within { size ≤ length cells.old }
    requires ordered { IsHeap (take size cells.old) }
    ensures { Dropped size cells.old cells.new }
{
    let left = size - 1;
    if 0 < left {
        let last = cells[left];
        replace_least(cells, left, last);
    }
}

// The cells of a window: the places where membership flips. How many cells are written says by its parity whether the record before is in.
ghost use Rattle.std.specs.Prelude.{◌≡◌, ℕ, ◌+◌, ◌*◌, ◌^◌, ◌<◌, ◌≤◌, length, true};
ghost use Rattle.std.proofs.lemmas.List.Edits.{sets};
ghost use Rattle.window.specs.Flips.{window_cells, marks, cells_at};
ghost use Rattle.window.specs.Steps.{PutCells};

// How many cells there are with those of a window, whose first bit is any record base, where k0 come before it. The carry from w >> 63 lets
// the loop run on vectors, which one from k % 2 would not.
pub fn count_flips(ws: &[u64], k0: usize) -> usize
    requires { k0 + 64 * length ws.now < 2 ^ 64 }
    ensures { (base : ℕ) → result ≡ k0 + length (window_cells ws.now base k0) }
{
    let mut k = k0;
    let mut c = (k0 % 2) as u64;
    for &w in ws {
        k += u64::count_ones(w ^ (c | (w << 1))) as usize;
        c = w >> 63;
    }
    k
}

// Writes the cells of the flips that x0 marks in the word whose first bit is record base, from cell k0 on.
fn write_marks(x0: u64, base: u32, k0: usize, out: &mut [u32]) -> usize
    requires begun { 1 ≤ base }
    requires fits { base + 64 < 2 ^ 32 }
    requires room { k0 + length (marks x0) ≤ length out.old }
    ensures writes { out.new ≡ sets out.old k0 (cells_at base k0 (marks x0)) }
    ensures counts { result ≡ k0 + length (marks x0) }
{
    let mut x = x0;
    let mut k = k0;
    // no `for`: a turn clears the lowest bit that is set, and jumps over the clear ones
    while x != 0 {
        let t = u64::trailing_zeros(x);
        out[k] = base + t - (k % 2) as u32;
        k += 1;
        x = x & (x - 1);
    }
    k
}

// Writes the cells of a window, whose first bit is record base, from cell k0 on, and answers how many there are then.
pub fn write_flips(ws: &[u64], base: u32, k0: usize, out: &mut [u32]) -> usize
    requires begun { 1 ≤ base }
    requires fits { base + 64 * length ws.now < 2 ^ 32 }
    requires room { k0 + length (window_cells ws.now base k0) ≤ length out.old }
    ensures { PutCells (window_cells ws.now base k0) k0 true out.old out.new result }
{
    let mut k = k0;
    let mut at = base;
    for &w in ws {
        let c = (k % 2) as u64;
        k = write_marks(w ^ (c | (w << 1)), at, k, out);
        at += 64;
    }
    k
}

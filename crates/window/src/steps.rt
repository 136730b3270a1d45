// Two steps over the records from x on: a jump over a stretch that stays as it is, and a window. Each counts the cells and the records that it
// passes, and writes the cells where the list is written and not only counted.
ghost use Rattle.std.specs.Prelude.{[], ◌∷◌, ◌+◌, ◌*◌, ◌^◌, ◌<◌, ◌≤◌, length};
ghost use Rattle.list.specs.Stretches.{turned};
ghost use Rattle.window.specs.Flips.{odd, window_cells};
ghost use Rattle.window.specs.Steps.{RoomFor, PutCells, Jumps};

use crate::flips::{count_flips, write_flips};

// How far an answer has come: its cells, and the records that they name.
#[derive(Clone, Copy)]
pub struct Done {
    pub cells: usize,
    pub records: usize,
}

// Puts the cell v behind the first k.
fn put_cell(v: u32, k: usize, writing: bool, out: &mut [u32]) -> usize
    requires fits { k < 4294967296 }
    requires room { RoomFor writing (v ∷ []) k out.old }
    ensures { PutCells (v ∷ []) k writing out.old out.new result }
{
    if writing {
        out[k] = v;
        return k + 1;
    }
    k + 1
}

// Puts the cell that x brings, if any, where the records from x on are all in or all out.
pub fn put_turn(inside: bool, x: u32, k: usize, writing: bool, out: &mut [u32]) -> usize
    requires begun { 1 ≤ x }
    requires fits { k < 4294967296 }
    requires room { RoomFor writing (turned (odd k) inside x []) k out.old }
    ensures { PutCells (turned (odd k) inside x []) k writing out.old out.new result }
{
    let open = k % 2;
    if inside {
        if open == 1 {
            return k;
        }
        return put_cell(x, k, writing, out);
    }
    if open == 0 {
        return k;
    }
    put_cell(x - 1, k, writing, out)
}

// Puts the cells of a window, whose first bit is record x.
pub fn put_flips(ws: &[u64], x: u32, k: usize, writing: bool, out: &mut [u32]) -> usize
    requires begun { 1 ≤ x }
    requires near { x + 64 * length ws.now < 2 ^ 32 }
    requires fits { k + 64 * length ws.now < 2 ^ 64 }
    requires room { RoomFor writing (window_cells ws.now x k) k out.old }
    ensures { PutCells (window_cells ws.now x k) k writing out.old out.new result }
{
    if writing {
        return write_flips(ws, x, k, out);
    }
    count_flips(ws, k)
}

// Passes the records from x to below y, which are all in or all out.
pub fn take_jump(
    inside: bool,
    x: u32,
    y: u32,
    k: usize,
    records: usize,
    writing: bool,
    out: &mut [u32],
) -> Done
    requires begun { 1 ≤ x }
    requires ahead { x < y }
    requires fits { k < 4294967296 }
    requires counted { records < 4294967296 }
    requires room { RoomFor writing (turned (odd k) inside x []) k out.old }
    ensures { Jumps inside x y writing k records out.old out.new result }
{
    let cells = put_turn(inside, x, k, writing, out);
    if inside {
        return Done {
            cells,
            records: records + (y - x) as usize,
        };
    }
    Done { cells, records }
}

// Intervals to numbers: a fault is looked for, then room is asked for, and only then is anything written.
ghost use Rattle.std.specs.Prelude.{◌≡◌, true, ℕ, ◌+◌, ◌-◌, ◌≤◌, ◌<◌, length};
ghost use Rattle.std.proofs.lemmas.List.Edits.{sets};
ghost use Rattle.list.specs.Interval.{records};
ghost use Rattle.list.specs.Stretches.{records_from};
ghost use Rattle.convert.specs.Convert.{bad_interval_of, numbers_of, ToNumbers};
ghost use Rattle.list.specs.Front.{in_front};

use limits::RECORD_MAX;
use refusal::Refusal;

// Reference 9.1, row 16: the first bad interval.
fn first_bad_interval(cells: &[u32]) -> Option<usize>
    ensures { result ≡ bad_interval_of cells.now }
{
    let whole = cells.len() / 2;
    let mut least: u32 = 1;
    for i in 0..whole {
        let l = cells[2 * i];
        let u = cells[2 * i + 1];
        if l < least || u < l || RECORD_MAX < u {
            return Some(i);
        }
        least = u + 2;
    }
    if cells.len() % 2 == 1 {
        return Some(whole);
    }
    None
}

// How many numbers the intervals name.
fn count_numbers(cells: &[u32]) -> usize
    requires { bad_interval_of cells.now ≡ None }
    ensures { result ≡ records cells.now }
{
    let mut n: u32 = 0;
    for pair in cells.chunks_exact(2) {
        n += pair[1] - pair[0] + 1;
    }
    n as usize
}

// Writes the numbers from l to below end from cell k on.
fn write_range(out: &mut [u32], k: usize, l: u32, end: u32)
    requires forward { l ≤ end }
    requires room { k + (end - l) ≤ length out.old }
    ensures { out.new ≡ sets out.old k (records_from (λ (y : ℕ). true) l (end - l)) }
{
    for x in l..end {
        out[k + (x - l) as usize] = x;
    }
}

// Writes the numbers that the intervals name from cell 0; the cells behind them stay.
fn write_numbers(cells: &[u32], out: &mut [u32])
    requires good { bad_interval_of cells.now ≡ None }
    requires room { records cells.now ≤ length out.old }
    ensures { out.new ≡ in_front (numbers_of cells.now) out.old }
{
    let mut k: usize = 0;
    for pair in cells.chunks_exact(2) {
        let l = pair[0];
        let end = pair[1] + 1;
        write_range(out, k, l, end);
        k += (end - l) as usize;
    }
}

// Reference 8.8: refusals 16 and 12, or how many numbers were written.
pub fn to_numbers(cells: &[u32], out: &mut [u32]) -> Result<usize, Refusal>
    ensures { ToNumbers cells.now out.old out.new result }
{
    if let Some(i) = first_bad_interval(cells) {
        return Err(Refusal::Interval(i));
    }
    let n = count_numbers(cells);
    if out.len() < n {
        return Err(Refusal::Room(n));
    }
    write_numbers(cells, out);
    Ok(n)
}

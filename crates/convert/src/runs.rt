// Runs of ascending numbers: what every writer of a list from numbers goes by.
ghost use Rattle.std.specs.Prelude.{◌≡◌, cond, ◌+◌, ◌≤◌, ◌<◌, eqb, length};
ghost use Rattle.limits.specs.Limits.{record_max};
ghost use Rattle.convert.specs.Convert.{bad_number_of};
ghost use Rattle.convert.specs.Runs.{RunAt};

// An interval of the numbers, and the place of the number behind it.
#[derive(Clone, Copy)]
pub struct Run {
    pub lower: u32,
    pub upper: u32,
    pub next: usize,
}

// The longest run from place i on.
pub fn next_run(numbers: &[u32], i: usize) -> Run
    requires good { bad_number_of numbers.now ≡ None }
    requires within { i < length numbers.now }
    ensures { RunAt numbers.now i result }
{
    let lower = numbers[i];
    let mut upper = lower;
    for next in i + 1..numbers.len() {
        let x = numbers[next];
        if x != upper + 1 {
            return Run { lower, upper, next };
        }
        upper = x;
    }
    Run {
        lower,
        upper,
        next: numbers.len(),
    }
}

// 0 where x goes on with the stretch that ends with u, else 1.
pub fn gap(u: u32, x: u32) -> usize
    requires { u ≤ record_max }
    ensures is { result ≡ cond (eqb x (u + 1)) 0 1 }
    ensures most { result ≤ 1 }
{
    if x == u + 1 { 0 } else { 1 }
}

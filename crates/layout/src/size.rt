// How many singles and pairs a list has, and how many bytes it takes.
ghost use Rattle.std.specs.Prelude.{◌≡◌, ◌+◌, ◌*◌, ◌≤◌, ltb};
ghost use Rattle.list.specs.Ginix.{one};
ghost use Rattle.convert.specs.Convert.{bad_number_of};
ghost use Rattle.layout.specs.Laid.{ListCountsOf};

use convert::runs::gap;

// How many singles and how many pairs a list has.
#[derive(Clone, Copy)]
pub struct ListCounts {
    pub singles: usize,
    pub pairs: usize,
}

// 1 where a run goes on behind its first number: whether the number before begins its run, and whether a gap stands behind it.
fn goes_on(begins: usize, apart: usize) -> usize
    requires flag { begins ≤ 1 }
    requires gap { apart ≤ 1 }
    ensures is { result ≡ one (ltb apart begins) }
    ensures begun { result ≤ begins }
    ensures either { result + apart ≤ 1 }
{
    if apart < begins { 1 } else { 0 }
}

// How many singles and pairs ascending numbers make. No branch hangs on a number, since where runs end cannot be foretold.
pub fn count_kept(numbers: &[u32]) -> ListCounts
    requires { bad_number_of numbers.now ≡ None }
    ensures { ListCountsOf numbers.now result }
{
    let [first, rest @ ..] = numbers else {
        return ListCounts {
            singles: 0,
            pairs: 0,
        };
    };
    let mut upper = *first;
    let mut begins: usize = 1;
    let mut n: usize = 1;
    let mut pairs: usize = 0;
    for &x in rest {
        let apart = gap(upper, x);
        n += apart;
        pairs += goes_on(begins, apart);
        begins = apart;
        upper = x;
    }
    ListCounts {
        singles: n - pairs,
        pairs,
    }
}

// Reference 3.4: the bytes of a kept list.
pub fn list_size(kept: ListCounts) -> usize
    requires { 4 * (kept.singles + 2 * kept.pairs) ≤ 18446744073709551615 }
    ensures { result ≡ 4 * (kept.singles + 2 * kept.pairs) }
{
    4 * (kept.singles + 2 * kept.pairs)
}

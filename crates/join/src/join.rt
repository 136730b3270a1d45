// The joins, and the frame that they share: check, count where the room may not do, write.
ghost use Rattle.std.specs.Prelude.{◌≡◌, ◌⊎◌, ℕ, List, refl};
ghost use Rattle.list.specs.Sweeps.{Listing, HasRoom, Sweeps};
ghost use Rattle.list.specs.Ginix.{union_of, intersection_of};
ghost use Rattle.merge.specs.Request.{SoundRequest, lists_of};
ghost use Rattle.join.specs.Join.{Joins};
ghost use Rattle.std.proofs.Common.{inl, inr};

use crate::request::{check_request, interval_sum};
use list::answer::Tally;
use probing::sweep_probing;
use refusal::Refusal;
use twin::sweep_twin;
use union::active::sweep_active;
use union::scan::sweep_scan;

// Reference 8.5: a method of a join, which list it gives and how: it counts, and writes where asked, the join of a request.
trait Method {
    ghost join_of: { List (List ℕ) → List ℕ };

    fn sweep(index: &[u8], entries: &[u32], writing: bool, out: &mut [u32]) -> Tally
        requires sound { SoundRequest index.now entries.now }
        requires room { HasRoom (join_of (lists_of index.now entries.now)) writing out.old }
        ensures { Sweeps (join_of (lists_of index.now entries.now)) writing out.old out.new result };

    ghost kind: { (join_of ≡ union_of) ⊎ (join_of ≡ intersection_of) };
}

struct ScanLine;

impl Method for ScanLine {
    ghost join_of = { union_of };

    ghost kind = { inl refl };

    fn sweep(index: &[u8], entries: &[u32], writing: bool, out: &mut [u32]) -> Tally {
        sweep_scan(index, entries, writing, out)
    }
}

struct ActiveInterval;

impl Method for ActiveInterval {
    ghost join_of = { union_of };

    ghost kind = { inl refl };

    fn sweep(index: &[u8], entries: &[u32], writing: bool, out: &mut [u32]) -> Tally {
        sweep_active(index, entries, writing, out)
    }
}

struct TwinHeap;

impl Method for TwinHeap {
    ghost join_of = { intersection_of };

    ghost kind = { inr refl };

    fn sweep(index: &[u8], entries: &[u32], writing: bool, out: &mut [u32]) -> Tally {
        sweep_twin(index, entries, writing, out)
    }
}

struct Probing;

impl Method for Probing {
    ghost join_of = { intersection_of };

    ghost kind = { inr refl };

    fn sweep(index: &[u8], entries: &[u32], writing: bool, out: &mut [u32]) -> Tally {
        sweep_probing(index, entries, writing, out)
    }
}

// The join of a request that is not refused. Nothing is written before refusal 12 is excluded: a join has no more intervals than its lists
// together, and where those may be too many it is counted first.
fn join_asked<M: Method>(index: &[u8], entries: &[u32], out: &mut [u32]) -> Result<Tally, Refusal>
    requires { SoundRequest index.now entries.now }
    ensures { Listing (M.join_of (lists_of index.now entries.now)) out.old out.new result }
{
    let room = out.len() / 2;
    if interval_sum(index, entries) <= room {
        return Ok(M::sweep(index, entries, true, out));
    }
    let needed = M::sweep(index, entries, false, out);
    if room < needed.intervals {
        return Err(Refusal::Room(needed.intervals));
    }
    Ok(M::sweep(index, entries, true, out))
}

fn join<M: Method>(index: &[u8], entries: &[u32], out: &mut [u32]) -> Result<Tally, Refusal>
    ensures { Joins M.join_of index.now entries.now out.old out.new result }
{
    check_request(index, entries)?;
    join_asked::<M>(index, entries, out)
}

// Reference 8.5: the union of the lists of the request, by a counter over all bounds in ascending order.
pub fn union_scan_line(index: &[u8], entries: &[u32], out: &mut [u32]) -> Result<Tally, Refusal>
    ensures { Joins union_of index.now entries.now out.old out.new result }
{
    join::<ScanLine>(index, entries, out)
}

// The same, by an active interval that the lower bounds in ascending order extend.
pub fn union_active_interval(
    index: &[u8],
    entries: &[u32],
    out: &mut [u32],
) -> Result<Tally, Refusal>
    ensures { Joins union_of index.now entries.now out.old out.new result }
{
    join::<ActiveInterval>(index, entries, out)
}

// Reference 8.5: their intersection, by the largest lower and the least upper bound of the intervals that are next.
pub fn intersection_twin_heap(
    index: &[u8],
    entries: &[u32],
    out: &mut [u32],
) -> Result<Tally, Refusal>
    ensures { Joins intersection_of index.now entries.now out.old out.new result }
{
    join::<TwinHeap>(index, entries, out)
}

// The same, by probes from the shortest list.
pub fn intersection_probing(
    index: &[u8],
    entries: &[u32],
    out: &mut [u32],
) -> Result<Tally, Refusal>
    ensures { Joins intersection_of index.now entries.now out.old out.new result }
{
    join::<Probing>(index, entries, out)
}

// Reference 3.3: the method of probing; each interval of the shortest list is cut down to what stands in every other list.
#![tactic(auto)]

ghost use Rattle.std.specs.Prelude.{◌≡◌, true, ◌+◌, ◌*◌, ◌≤◌, ◌<◌, is_some, length, get_or};
ghost use Rattle.std.specs.Option.{unwrap_or};
ghost use Rattle.list.specs.Ginix.{intersection_of};
ghost use Rattle.list.specs.Interval.{names};
ghost use Rattle.list.specs.Sense.{Steady};
ghost use Rattle.index.specs.Format.{list_of};
ghost use Rattle.merge.specs.Request.{SoundRequest, lists_of};
ghost use Rattle.merge.specs.Put.{Fitting, PutWhere, up_to};
ghost use Rattle.list.specs.Sweeps.{HasRoom, Sweeps};
ghost use Rattle.merge.specs.Every.{in_all};
ghost use Rattle.probing.specs.Probing.{Shortest, PiecesFit, PiecesPut, pieces_in, StandsIn, closes};

use directory::parts::{interval_count, kept_of};
use directory::sense::sense_in;
use limits::JOIN_MAX;
use list::Place;
use list::answer::Tally;
use list::reading::Interval;
use list::sense::Sense;
use merge::put::put_where;

// The place in the request of a list with the fewest intervals.
fn shortest(index: &[u8], entries: &[u32]) -> usize
    requires { SoundRequest index.now entries.now }
    ensures { Shortest index.now entries.now result }
{
    let mut best = 0;
    let mut fewest = interval_count(index, entries[0] as usize);
    for j in 1..entries.len() {
        let count = interval_count(index, entries[j] as usize);
        if count < fewest {
            best = j;
            fewest = count;
        }
    }
    best
}

// What list k of a request says of x, and how long it says so, where [x, b] is known to stand in list j: that one is not searched.
fn sense_of(
    index: &[u8],
    entries: &[u32],
    j: usize,
    k: usize,
    x: u32,
    b: u32,
    hints: &mut [Place; JOIN_MAX],
) -> Sense
    requires within { StandsIn index.now entries.now j x b }
    requires order { x ≤ b }
    requires list { k < length entries.now }
    ensures { Steady (names (list_of index.now (get_or entries.now k 0))) x result.inside result.until }
{
    if k == j {
        return Sense {
            inside: true,
            until: b + 1,
        };
    }
    sense_in(index, entries[k] as usize, x, k, hints)
}

// Probes [x, b], which stands in list j, in every list: whether x is in all of them, and up to where that stays so, within the probe.
// The first list that x is not in decides.
fn probe(
    index: &[u8],
    entries: &[u32],
    j: usize,
    x: u32,
    b: u32,
    hints: &mut [Place; JOIN_MAX],
) -> Sense
    requires within { StandsIn index.now entries.now j x b }
    requires order { x ≤ b }
    ensures steady { Steady (in_all index.now entries.now) x result.inside result.until }
    ensures near { result.until ≤ b + 1 }
{
    let mut until = b + 1;
    for k in 0..entries.len() {
        let sense = sense_of(index, entries, j, k, x, b, hints);
        if !sense.inside {
            return Sense {
                inside: false,
                until: sense.until.min(b + 1),
            };
        }
        until = until.min(sense.until);
    }
    Sense {
        inside: true,
        until,
    }
}

// Puts a piece that is open, which has its lower bound, and ends before x.
fn close_piece(
    out: &mut [u32],
    writing: bool,
    tally: Tally,
    piece: Option<u32>,
    x: u32,
    inside: bool,
) -> Tally
    requires begun { is_some piece ≡ true → unwrap_or piece x < x }
    requires fits { closes piece inside ≡ true → Fitting writing out.old tally (up_to (unwrap_or piece x) x) }
    ensures { PutWhere (closes piece inside) writing out.old out.new tally (up_to (unwrap_or piece x) x) result }
{
    let Some(lower) = piece else {
        return tally;
    };
    let closed = Interval {
        lower,
        upper: x - 1,
    };
    put_where(!inside, out, writing, tally, closed)
}

// Counts, and writes, what of an interval of list j stands in every list.
fn put_within(
    index: &[u8],
    entries: &[u32],
    j: usize,
    within: Interval,
    hints: &mut [Place; JOIN_MAX],
    writing: bool,
    out: &mut [u32],
    before: Tally,
) -> Tally
    requires within { StandsIn index.now entries.now j within.lower within.upper }
    requires order { within.lower ≤ within.upper }
    requires fits { PiecesFit writing out.old before (pieces_in index.now entries.now within) }
    ensures { PiecesPut writing out.old out.new before (pieces_in index.now entries.now within) result }
{
    let b = within.upper;
    let mut x = within.lower;
    let mut tally = before;
    // the lower bound of the piece that is open; it begins at x, where none is
    let mut piece = None;
    // no `for`: x moves on by what a probe says, and not by one
    while x <= b {
        let sense = probe(index, entries, j, x, b, hints);
        tally = close_piece(out, writing, tally, piece, x, sense.inside);
        piece = sense.inside.then_some(piece.unwrap_or(x));
        x = sense.until;
    }
    close_piece(out, writing, tally, piece, x, false)
}

// Counts, and writes, the intersection of the lists of a request: the shortest is walked, and each of its intervals is probed in the others, forward
// from where each was read last.
pub fn sweep_probing(index: &[u8], entries: &[u32], writing: bool, out: &mut [u32]) -> Tally
    requires sound { SoundRequest index.now entries.now }
    requires room { HasRoom (intersection_of (lists_of index.now entries.now)) writing out.old }
    ensures { Sweeps (intersection_of (lists_of index.now entries.now)) writing out.old out.new result }
{
    let j = shortest(index, entries);
    let kept = kept_of(index, entries[j] as usize);
    let count = kept.singles.len() / 4 + kept.lower.len() / 4;
    let mut hints = [Place::START; JOIN_MAX];
    let mut at = Place::START;
    let mut tally = Tally::default();
    for _ in 0..count {
        let within = kept.interval_at(at);
        tally = put_within(index, entries, j, within, &mut hints, writing, out, tally);
        at = kept.next_place(at);
    }
    tally
}

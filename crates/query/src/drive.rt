// The driver: from record 1 to the highest it jumps where the answer stays as it is for long, and else works on a window.
ghost use Rattle.std.specs.Prelude.{◌≡◌, ◌≤◌, map, length};
ghost use Rattle.limits.specs.Limits.{record_max};
ghost use Rattle.slots.specs.Row.{SlotsStay, HintsMoved};
ghost use Rattle.slots.specs.Having.{having, ReadBy};
ghost use Rattle.senses.specs.Senses.{Sensed};
ghost use Rattle.window.specs.Tuning.{window_most};
ghost use Rattle.query.specs.Drive.{
  AskedBy,
  Slotted,
  Ends,
  Roomy,
  Fits,
  WindowAt,
  Stands,
  TakesWindow,
  LooksAt,
  Moves,
  Tallies,
};

use codes::code::AsCode;
use codes::group::GROUPED_BRACKETS;
use evaluate::eval::{Step, eval_level};
use list::answer::Tally;
use senses::kept::renew_senses;
use senses::look::{Look, look_level};
use slots::row::{Indexes, Row};
use window::fill::clear;
use window::members::count_members;
use window::steps::{Done, put_flips, put_turn, take_jump};
use window::tuning::{FAR, LEAST, MOST};

// What a pass is asked.
#[derive(Clone, Copy)]
pub struct Pass {
    // the last record
    pub n: u32,
    // how many slots the question has
    pub slots: usize,
    // whether it writes the list, or only counts it
    pub writing: bool,
}

// Where the driver stands.
#[derive(Clone, Copy)]
pub struct At {
    // the next record
    pub x: u32,
    // how many words of 64 bits the next window has
    pub width: usize,
    // the cells so far: an odd number where a stretch is open
    pub cells: usize,
    // the records that were passed and satisfy the question
    pub records: usize,
}

fn doubled(width: usize) -> usize
    ensures some { 1 ≤ width → 1 ≤ result }
    ensures most { result ≤ window_most }
{
    if width < MOST / 2 { width * 2 } else { MOST }
}

// Passes the records of a window: the question is evaluated for them, and the window's cells are put.
fn take_window<C: AsCode>(
    codes: &[C],
    over: Indexes<'_>,
    row: &mut Row,
    at: At,
    ws: &mut [u64],
    writing: bool,
    out: &mut [u32],
) -> Done
    requires lends { ReadBy over.main.now over.arrivals.now row.old }
    requires sensed { Sensed (having over.main.now over.arrivals.now row.old) row.old.senses at.x }
    requires within { WindowAt ws.old at }
    requires room { Roomy (map C.code codes.now) (having over.main.now over.arrivals.now row.old) at.x writing at.cells out.old }
    ensures moved { HintsMoved row.old row.new }
    ensures long { length ws.new ≡ length ws.old }
    ensures steps { TakesWindow (map C.code codes.now) (having over.entry.main.now over.entry.arrivals.now row.old) writing at out.old out.new result }
{
    let x = at.x;
    clear(ws);
    let start = Step { code: 0, slot: 0 };
    eval_level(codes, start, GROUPED_BRACKETS, over, x, row, ws);
    let cells = put_flips(ws, x, at.cells, writing, out);
    Done {
        cells,
        records: at.records + count_members(ws),
    }
}

// What the question says of record x, by the senses of its words, which have the first slots.
fn look_at<C: AsCode>(codes: &[C], over: Indexes<'_>, row: &mut Row, slots: usize, x: u32) -> Look
    requires lends { ReadBy over.main.now over.arrivals.now row.old }
    requires near { x ≤ record_max }
    requires slotted { Slotted (map C.code codes.now) (having over.main.now over.arrivals.now row.old) row.old.senses slots x }
    ensures slots { SlotsStay row.old row.new }
    ensures sensed { Sensed (having over.entry.main.now over.entry.arrivals.now row.old) row.new.senses x }
    ensures steady { LooksAt (map C.code codes.now) (having over.entry.main.now over.entry.arrivals.now row.old) x result }
{
    renew_senses(over, row, slots, x);
    look_level(codes, 0, 0, GROUPED_BRACKETS, row)
}

// One step from where the driver stands.
fn step<C: AsCode>(
    codes: &[C],
    over: Indexes<'_>,
    row: &mut Row,
    pass: Pass,
    at: At,
    ws: &mut [u64],
    out: &mut [u32],
) -> At
    requires lends { ReadBy over.main.now over.arrivals.now row.old }
    requires window { length ws.old ≡ window_most }
    requires slotted { Slotted (map C.code codes.now) (having over.main.now over.arrivals.now row.old) row.old.senses pass.slots at.x }
    requires stands { Stands pass.n at }
    requires room { Roomy (map C.code codes.now) (having over.main.now over.arrivals.now row.old) at.x pass.writing at.cells out.old }
    ensures slots { SlotsStay row.old row.new }
    ensures long { length ws.new ≡ length ws.old }
    ensures sensed { Sensed (having over.entry.main.now over.entry.arrivals.now row.old) row.new.senses result.x }
    ensures some { 1 ≤ result.width }
    ensures most { result.width ≤ window_most }
    ensures moves { Moves (map C.code codes.now) (having over.entry.main.now over.entry.arrivals.now row.old) pass at out.old out.new result }
{
    let Pass { n, slots, writing } = pass;
    let x = at.x;
    let sight = look_at(codes, over, row, slots, x);
    let y = sight.until.min(n + 1);
    if x + FAR <= y {
        let done = take_jump(sight.inside, x, y, at.cells, at.records, writing, out);
        return At {
            x: y,
            width: LEAST,
            cells: done.cells,
            records: done.records,
        };
    }
    let width = at.width;
    let part = &mut ws[0..width];
    let done = take_window(codes, over, row, at, part, writing, out);
    At {
        x: (x + 64 * width as u32).min(n + 1),
        width: doubled(width),
        cells: done.cells,
        records: done.records,
    }
}

// Passes the records from 1 to n, and closes the stretch that is still open there.
fn sweep<C: AsCode>(
    codes: &[C],
    over: Indexes<'_>,
    row: &mut Row,
    pass: Pass,
    ws: &mut [u64],
    out: &mut [u32],
) -> Tally
    requires lends { ReadBy over.main.now over.arrivals.now row.old }
    requires window { length ws.old ≡ window_most }
    requires ends { Ends (having over.main.now over.arrivals.now row.old) pass.n }
    requires slotted { Slotted (map C.code codes.now) (having over.main.now over.arrivals.now row.old) row.old.senses pass.slots 1 }
    requires room { Fits (map C.code codes.now) (having over.main.now over.arrivals.now row.old) pass out.old }
    ensures slots { SlotsStay row.old row.new }
    ensures tallies { Tallies (map C.code codes.now) (having over.entry.main.now over.entry.arrivals.now row.old) pass out.old out.new result }
{
    let mut at = At {
        x: 1,
        width: LEAST,
        cells: 0,
        records: 0,
    };
    // no `for`: the place moves by the jump or the window taken, not by one
    while at.x <= pass.n {
        at = step(codes, over, row, pass, at, ws, out);
    }
    let cells = put_turn(false, at.x, at.cells, pass.writing, out);
    Tally {
        intervals: cells / 2,
        records: at.records,
    }
}

// Counts the intervals and the records of a question's answer, and writes the intervals where the pass is to write.
pub fn sweep_question<C: AsCode>(
    codes: &[C],
    over: Indexes<'_>,
    row: &mut Row,
    pass: Pass,
    out: &mut [u32],
) -> Tally
    requires asked { AskedBy (map C.code codes.now) over.main.now over.arrivals.now row.old pass.slots }
    requires ends { Ends (having over.main.now over.arrivals.now row.old) pass.n }
    requires room { Fits (map C.code codes.now) (having over.main.now over.arrivals.now row.old) pass out.old }
    ensures slots { SlotsStay row.old row.new }
    ensures tallies { Tallies (map C.code codes.now) (having over.entry.main.now over.entry.arrivals.now row.old) pass out.old out.new result }
{
    row.forget_senses();
    let mut ws: [u64; MOST] = [0; MOST];
    sweep(codes, over, row, pass, &mut ws, out)
}

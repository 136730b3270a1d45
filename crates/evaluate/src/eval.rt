// A question answered for a window, by its codes: a level evaluates its first operand into the window, and each further one into a window of
// its own, which is then combined with it. The bracket depth left falls at each call.
ghost use Rattle.std.specs.Prelude.{◌≡◌, true, ◌+◌, ◌≤◌, ◌<◌, map, length, Some, slice_get};
ghost use Rattle.limits.specs.Limits.{question_words_max, record_max};
ghost use Rattle.window.specs.Tuning.{window_most};
ghost use Rattle.codes.specs.declared.code.Code.TheVariants as kind;
ghost use Rattle.codes.specs.Reads.{as_level, as_operand};
ghost use Rattle.slots.specs.Row.{HintsMoved};
ghost use Rattle.slots.specs.Having.{having};
ghost use Rattle.evaluate.specs.Evaluated.{OutFor, Ready, Evaluated};

use crate::combine::{combine_blank, combine_into};
use crate::slot::{fill_slot, is_out};
use codes::code::AsCode;
use codes::read::{closing_at, opening_at, operator_at, word_at};
use limits::QUESTION_WORDS_MAX;
use slots::row::{Indexes, Row};
use window::tuning::MOST;

// Where an evaluation stands: the next code, and the slot of the next word.
#[derive(Clone, Copy)]
pub struct Step {
    pub code: usize,
    pub slot: usize,
}

// Evaluates the level that begins at a step, where d brackets may still open, for the records from base on.
#[cycle(eval_level_eval_operand_eval_part)]
pub fn eval_level<C: AsCode>(
    codes: &[C],
    at: Step,
    d: usize,
    over: Indexes<'_>,
    base: u32,
    row: &mut Row,
    ws: &mut [u64],
) -> Step
    requires { Ready codes.now at over.main.now over.arrivals.now base row.old ws.old }
    ensures moved { HintsMoved row.old row.new }
    ensures long { length ws.new ≡ length ws.old }
    ensures reads { Evaluated (as_level d) (map C.code codes.now) at (having over.entry.main.now over.entry.arrivals.now row.old) base ws.new result }
{
    let mut next = eval_operand(codes, at, d, over, base, row, ws);
    let n = ws.len();
    // no `for`: each turn begins where the operand that was read ends
    while let Some(op) = operator_at(codes, next.code) {
        let right = next.code + 1;
        let slot = next.slot;
        if word_out(codes, right, slot, row, base, n) {
            combine_blank(op, ws);
            next = Step {
                code: right + 1,
                slot: slot + 1,
            };
        } else {
            let behind = Step { code: right, slot };
            let mut other: [u64; MOST] = [0; MOST];
            let part = &mut other[0..n];
            next = eval_operand(codes, behind, d, over, base, row, part);
            combine_into(op, ws, &other[0..n]);
        }
    }
    next
}

// Whether code i is that of a word, which has slot k, and the slot is out for a window of n numbers from base on.
fn word_out<C: AsCode>(codes: &[C], i: usize, k: usize, row: &Row, base: u32, n: usize) -> bool
    requires size { n ≤ window_most }
    requires near { base ≤ record_max + 1 }
    ensures word { result ≡ true → slice_get (map C.code codes.now) i ≡ Some kind.Word }
    ensures slot { result ≡ true → k < question_words_max }
    ensures out { result ≡ true → OutFor row.now.senses k base n }
{
    if !word_at(codes, i) {
        return false;
    }
    if QUESTION_WORDS_MAX <= k {
        return false;
    }
    is_out(row, k, base, n)
}

// Evaluates the operand that begins at a step: a word, or a level in brackets.
#[cycle(eval_level_eval_operand_eval_part)]
fn eval_operand<C: AsCode>(
    codes: &[C],
    at: Step,
    d: usize,
    over: Indexes<'_>,
    base: u32,
    row: &mut Row,
    ws: &mut [u64],
) -> Step
    requires { Ready codes.now at over.main.now over.arrivals.now base row.old ws.old }
    ensures moved { HintsMoved row.old row.new }
    ensures long { length ws.new ≡ length ws.old }
    ensures reads { Evaluated (as_operand d) (map C.code codes.now) at (having over.entry.main.now over.entry.arrivals.now row.old) base ws.new result }
{
    if !word_at(codes, at.code) {
        return eval_part(codes, at, d, over, base, row, ws);
    }
    if QUESTION_WORDS_MAX <= at.slot {
        return at;
    }
    fill_slot(over, row, at.slot, base, ws);
    Step {
        code: at.code + 1,
        slot: at.slot + 1,
    }
}

// Evaluates a level in brackets. Where none can stand there, the answer says nothing.
#[cycle(eval_level_eval_operand_eval_part)]
fn eval_part<C: AsCode>(
    codes: &[C],
    at: Step,
    d: usize,
    over: Indexes<'_>,
    base: u32,
    row: &mut Row,
    ws: &mut [u64],
) -> Step
    requires ready { Ready codes.now at over.main.now over.arrivals.now base row.old ws.old }
    requires wordless { slice_get (map C.code codes.now) at.code ≡ Some kind.Word → ⊥ }
    ensures moved { HintsMoved row.old row.new }
    ensures long { length ws.new ≡ length ws.old }
    ensures reads { Evaluated (as_operand d) (map C.code codes.now) at (having over.entry.main.now over.entry.arrivals.now row.old) base ws.new result }
{
    if !opening_at(codes, at.code) {
        return at;
    }
    if d == 0 {
        return at;
    }
    let opened = Step {
        code: at.code + 1,
        slot: at.slot,
    };
    let inside = eval_level(codes, opened, d - 1, over, base, row, ws);
    let end = inside.code;
    if !closing_at(codes, end) {
        return at;
    }
    Step {
        code: end + 1,
        slot: inside.slot,
    }
}

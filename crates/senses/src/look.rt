// Whether a record satisfies a question, by its codes and the senses of its slots there, and until which number that stays so.
ghost use Rattle.std.specs.Prelude.{◌≡◌, ◌≤◌, Some, map, length, slice_get};
ghost use Rattle.codes.specs.declared.code.Code.TheVariants as kind;
ghost use Rattle.codes.specs.Reads.{as_level, as_operand};
ghost use Rattle.senses.specs.Look.{Looks};

use crate::pair::pair_senses;
use codes::code::AsCode;
use codes::read::{closing_at, opening_at, operator_at, word_at};
use limits::QUESTION_WORDS_MAX;
use list::sense::Sense;
use slots::row::Row;

// The code and the slot behind what was looked at, and its sense.
#[derive(Clone, Copy)]
pub struct Look {
    pub code: usize,
    pub slot: usize,
    pub inside: bool,
    pub until: u32,
}

// What was read is no operand or no level, which no accepted question comes to.
fn unread(code: usize) -> Look
    ensures { result.code ≡ code }
{
    Look {
        code,
        slot: 0,
        inside: false,
        until: 0,
    }
}

// The operands of a level, from the left.
#[cycle(look_level_look_operand_look_part)]
pub fn look_level<C: AsCode>(codes: &[C], i: usize, k: usize, d: usize, row: &Row) -> Look
    requires within { i ≤ length codes.now }
    ensures { Looks (as_level d k) (map C.code codes.now) i k row.now.senses result }
{
    let first = look_operand(codes, i, k, d, row);
    let mut at = first.code;
    let mut slot = first.slot;
    let mut inside = first.inside;
    let mut until = first.until;
    // no `for`: each turn begins where the operand that was read ends
    while let Some(op) = operator_at(codes, at) {
        let next = look_operand(codes, at + 1, slot, d, row);
        let sense = pair_senses(
            op,
            Sense { inside, until },
            Sense {
                inside: next.inside,
                until: next.until,
            },
        );
        inside = sense.inside;
        until = sense.until;
        slot = next.slot;
        at = next.code;
    }
    Look {
        code: at,
        slot,
        inside,
        until,
    }
}

// A word, or a level in brackets, of which d may still open. It is small, so that the words of a level are looked at without a call.
#[cycle(look_level_look_operand_look_part)]
fn look_operand<C: AsCode>(codes: &[C], i: usize, k: usize, d: usize, row: &Row) -> Look
    requires within { i ≤ length codes.now }
    ensures { Looks (as_operand d k) (map C.code codes.now) i k row.now.senses result }
{
    if !word_at(codes, i) {
        return look_part(codes, i, k, d, row);
    }
    if QUESTION_WORDS_MAX <= k {
        return unread(i);
    }
    let sense = row.senses[k];
    Look {
        code: i + 1,
        slot: k + 1,
        inside: sense.inside,
        until: sense.until,
    }
}

// A level in brackets.
#[cycle(look_level_look_operand_look_part)]
fn look_part<C: AsCode>(codes: &[C], i: usize, k: usize, d: usize, row: &Row) -> Look
    requires within { i ≤ length codes.now }
    requires wordless { slice_get (map C.code codes.now) i ≡ Some kind.Word → ⊥ }
    ensures { Looks (as_operand d k) (map C.code codes.now) i k row.now.senses result }
{
    if !opening_at(codes, i) {
        return unread(i);
    }
    if d == 0 {
        return unread(i);
    }
    let part = look_level(codes, i + 1, k, d - 1, row);
    let close = part.code;
    if !closing_at(codes, close) {
        return unread(close);
    }
    Look {
        code: close + 1,
        slot: part.slot,
        inside: part.inside,
        until: part.until,
    }
}

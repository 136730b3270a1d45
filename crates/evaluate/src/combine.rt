// Two windows combined by an operator, word by word.
ghost use Rattle.std.specs.Prelude.{◌≡◌, length, replicate};
ghost use Rattle.window.specs.Window.{CombinedWord, Combined};
ghost use Rattle.question.specs.Meaning.{combine};
ghost use Rattle.word.specs.declared.Op.{Op};

use question::token::Op;
use window::fill::clear;

// A word with that of the right side; v ^ (v & w) is v & !w.
fn combine_word(op: Op, v: u64, w: u64) -> u64
    ensures { CombinedWord (combine op) v w result }
{
    match op {
        Op::And => v & w,
        Op::Or => v | w,
        Op::Not => v ^ (v & w),
    }
}

// Combines a window with the window of its right side. The operator stays as it is, so that the compiler makes of the one loop three on vectors.
fn combine_by(op: Op, ws: &mut [u64], other: &[u64])
    requires { length other.now ≡ length ws.old }
    ensures { Combined (combine op) ws.old other.now ws.new }
{
    for (i, w) in ws.iter_mut().enumerate() {
        *w = combine_word(op, *w, other[i]);
    }
}

// The same by an operator, or by what stands for one, as a number does.
pub fn combine_into<O: Into<Op>>(op: O, ws: &mut [u64], other: &[u64])
    requires { length other.now ≡ length ws.old }
    ensures { (o : Op) × O.converts op o × Combined (combine o) ws.old other.now ws.new }
{
    combine_by(op.into(), ws, other);
}

// Combines a window with a blank one: `and` leaves nothing of it, the others leave it as it is.
#[tactic(auto, using(crate::proofs::EvalLaws::blank_and, crate::proofs::EvalLaws::blank_or, crate::proofs::EvalLaws::blank_not))]
fn blank_by(op: Op, ws: &mut [u64])
    ensures { Combined (combine op) ws.old (replicate (length ws.old) 0) ws.new }
{
    match op {
        Op::And => clear(ws),
        Op::Or => {}
        Op::Not => {}
    }
}

pub fn combine_blank<O: Into<Op>>(op: O, ws: &mut [u64])
    ensures { (o : Op) × O.converts op o × Combined (combine o) ws.old (replicate (length ws.old) 0) ws.new }
{
    blank_by(op.into(), ws);
}

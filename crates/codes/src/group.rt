// Rule 2 (Reference 6.3): the groups of a question's codes put in brackets, so that from the left they mean what the rule makes of the question.
ghost use Rattle.std.specs.Prelude.{◌≡◌, ◌+◌, ◌*◌, ◌≤◌, ◌<◌, map, length};
ghost use Rattle.codes.specs.Group.{binds_first, levels_around, ends_group};
ghost use Rattle.codes.specs.Grouping.{WideAt, PutsCode, GroupsCode, GroupsCodes};

use crate::code::{AsCode, Code};
use crate::read::{operator_at, word_at};
use limits::{BRACKETS_MAX, QUESTION_MAX};
use question::token::Op;

// The most codes that there are with groups in brackets, and the most brackets that are open at one place.
pub const GROUPED_MAX: usize = 3 * QUESTION_MAX + 1;

pub const GROUPED_BRACKETS: usize = 2 * BRACKETS_MAX + 1;

// What has been written, and what stands open there.
#[derive(Clone, Copy)]
pub struct Grouping {
    // whether a group of this level stands in brackets
    pub inside: bool,
    // the same of the levels around it, a bit for each, the innermost the lowest
    pub outer: usize,
    // the codes so far
    pub count: usize,
}

// Whether an operator is of the higher rank, which goes before `or`.
fn binds_first(op: Op) -> bool
    ensures { result ≡ binds_first op }
{
    match op {
        Op::And => true,
        Op::Or => false,
        Op::Not => true,
    }
}

// Whether the group that begins at place i is more than one word.
#[tactic(auto, using(crate::proofs::PassLaws::wide_told, crate::proofs::PassLaws::wide_no))]
fn is_wide<C: AsCode>(codes: &[C], i: usize) -> bool
    requires { i ≤ length codes.now }
    ensures { WideAt (map C.code codes.now) i result }
{
    if !word_at(codes, i) {
        return true;
    }
    match operator_at(codes, i + 1) {
        Some(op) => binds_first(op),
        None => false,
    }
}

// The levels around a part that opens.
fn enter(inside: bool, outer: usize) -> usize
    ensures { result ≡ levels_around inside outer }
{
    if inside {
        outer % 256 * 2 + 1
    } else {
        outer % 256 * 2
    }
}

// Whether a code ends the group in brackets before it.
fn ends_group(inside: bool, code: Code) -> bool
    ensures { result ≡ ends_group inside code }
{
    match code {
        Code::Op(Op::Or) => inside,
        Code::Close => inside,
        _ => false,
    }
}

// Writes a code behind the first n, where it is wanted.
fn put_code<C: AsCode>(wanted: bool, code: C, n: usize, out: &mut [C]) -> usize
    requires { n < length out.old }
    ensures { PutsCode wanted code n out.old out.new result }
{
    if wanted {
        out[n] = code;
        return n + 1;
    }
    n
}

// One code more.
fn group_code<C: AsCode>(codes: &[C], i: usize, at: Grouping, out: &mut [C]) -> Grouping
    requires within { i < length codes.now }
    requires room { at.count + 3 ≤ length out.old }
    ensures { GroupsCode C.written codes.now i at out.old out.new result }
{
    let here = codes[i];
    let code = here.to_code();
    let ended = ends_group(at.inside, code);
    let begun = put_code(ended, C::of_code(Code::Close), at.count, out);
    let count = put_code(true, here, begun, out);
    match code {
        Code::Op(op) => {
            if binds_first(op) {
                return Grouping { count, ..at };
            }
            let wide = is_wide(codes, i + 1);
            Grouping {
                inside: wide,
                outer: at.outer,
                count: put_code(wide, C::of_code(Code::Open), count, out),
            }
        }
        Code::Open => Grouping {
            inside: false,
            outer: enter(at.inside, at.outer),
            count,
        },
        Code::Close => Grouping {
            inside: at.outer % 2 == 1,
            outer: at.outer / 2,
            count,
        },
        _ => Grouping { count, ..at },
    }
}

// Writes the codes with their groups in brackets, and answers how many there are.
pub fn group_codes<C: AsCode>(codes: &[C], out: &mut [C]) -> usize
    requires { 3 * length codes.now + 1 ≤ length out.old }
    ensures { GroupsCodes C.written codes.now out.old out.new result }
{
    let mut at = Grouping {
        inside: false,
        outer: 0,
        count: 0,
    };
    for i in 0..codes.len() {
        at = group_code(codes, i, at, out);
    }
    put_code(at.inside, C::of_code(Code::Close), at.count, out)
}

// Reading a question's codes.
ghost use Rattle.std.specs.Prelude.{◌≡◌, ◌↔◌, Some, IsTrue, map, slice_get};
ghost use Rattle.codes.specs.declared.code.Code.TheVariants as kind;
ghost use Rattle.codes.specs.Code.{operator_at};

use crate::code::{AsCode, Code};
use question::token::Op;

// The code at place i; behind the last there is none.
pub fn code_at<C: AsCode>(codes: &[C], i: usize) -> Option<Code>
    ensures { result ≡ slice_get (map C.code codes.now) i }
{
    codes.get(i).map(|c| c.to_code())
}

pub fn word_at<C: AsCode>(codes: &[C], i: usize) -> bool
    ensures { IsTrue result ↔ (slice_get (map C.code codes.now) i ≡ Some kind.Word) }
{
    matches!(code_at(codes, i), Some(Code::Word))
}

pub fn opening_at<C: AsCode>(codes: &[C], i: usize) -> bool
    ensures { IsTrue result ↔ (slice_get (map C.code codes.now) i ≡ Some kind.Open) }
{
    matches!(code_at(codes, i), Some(Code::Open))
}

pub fn closing_at<C: AsCode>(codes: &[C], i: usize) -> bool
    ensures { IsTrue result ↔ (slice_get (map C.code codes.now) i ≡ Some kind.Close) }
{
    matches!(code_at(codes, i), Some(Code::Close))
}

// The operator at place i, if one stands there.
pub fn operator_at<C: AsCode>(codes: &[C], i: usize) -> Option<Op>
    ensures { result ≡ operator_at (map C.code codes.now) i }
{
    match code_at(codes, i) {
        Some(Code::Op(op)) => Some(op),
        _ => None,
    }
}

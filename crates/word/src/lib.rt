// Words: their bytes, their order, and the three that are operators. Reference 2.
#![tactic(auto)]

ghost use Rattle.std.specs.Prelude.{◌≡◌, cond};
ghost use Rattle.word.specs.Code.{op_of};
ghost use Rattle.word.specs.Word.{
  is_word_byte,
  all_word_bytes,
  small_operator_of,
  operator_of,
  is_barred,
  is_word,
  order_of,
};

use limits::WORD_MAX;
use std::cmp::Ordering;

// The operators of a question.
#[derive(Clone, Copy, PartialEq, Eq)]
pub enum Op {
    And,
    Or,
    Not,
}

// An operator by a number: 0 and 1 are `and`, 2 is `or`, and every other one is `not`.
impl From<u8> for Op {
    ghost from_gives = { λ code op. op ≡ op_of code };

    fn from(code: u8) -> Op {
        match code {
            0 => Op::And,
            1 => Op::And,
            2 => Op::Or,
            _ => Op::Not,
        }
    }
}

// Whether a byte is a word byte, without a branch.
pub fn word_byte(b: u8) -> bool
    ensures { result ≡ is_word_byte b }
{
    (48 <= b) & (b <= 57) | (65 <= b) & (b <= 90) | (97 <= b) & (b <= 122)
}

// Whether every byte is a word byte; gathered without a branch, since nearly every run it is asked of is one.
pub fn word_bytes(s: &[u8]) -> bool
    ensures { result ≡ all_word_bytes s.now }
{
    let mut all = true;
    for b in s {
        all &= word_byte(*b);
    }
    all
}

// What is set in a letter before it is compared: where `every` spelling counts, the bit that makes a capital letter the small one.
fn case_bit(every: bool) -> u8
    ensures { result ≡ cond every 32 0 }
{
    if every { 32 } else { 0 }
}

// Which operator the bytes are: in small letters or, where `every` spelling counts, in any mixture of small and capital ones.
fn operator_by(s: &[u8], every: bool) -> Option<Op>
    ensures { result ≡ cond every (operator_of s.now) (small_operator_of s.now) }
{
    let bit = case_bit(every);
    if s.len() == 2 {
        if ((s[0] | bit) == b'o') & ((s[1] | bit) == b'r') {
            return Some(Op::Or);
        }
        return None;
    }
    if s.len() != 3 {
        return None;
    }
    let x = s[0] | bit;
    let y = s[1] | bit;
    let z = s[2] | bit;
    if (x == b'a') & (y == b'n') & (z == b'd') {
        return Some(Op::And);
    }
    if (x == b'n') & (y == b'o') & (z == b't') {
        return Some(Op::Not);
    }
    None
}

// Which operator a run of a question is: every spelling is one.
pub fn operator_of(s: &[u8]) -> Option<Op>
    ensures { result ≡ operator_of s.now }
{
    operator_by(s, true)
}

fn is_barred(s: &[u8], every: bool) -> bool
    ensures { result ≡ is_barred every s.now }
{
    operator_by(s, every).is_some()
}

// Whether the bytes may stand as a word in an index, from which `every` spelling of the operators is barred or those in small letters alone.
pub fn is_word(s: &[u8], every: bool) -> bool
    ensures { result ≡ is_word every s.now }
{
    if s.len() < 1 {
        return false;
    }
    if s.len() > WORD_MAX {
        return false;
    }
    if !word_bytes(s) {
        return false;
    }
    !is_barred(s, every)
}

// The order of two words, byte by byte; the beginning of a word stands before the word.
#[tactic(auto, using(crate::proofs::WordLaws::order_is_cmp))]
pub fn compare(a: &[u8], b: &[u8]) -> Ordering
    ensures { result ≡ order_of a.now b.now }
{
    a.cmp(&b)
}

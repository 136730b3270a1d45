// Reference 6.2: the readers of a question, which go from operand to operand by the links between them.
ghost use Rattle.std.specs.Prelude.{◌≤◌, length};
ghost use Rattle.limits.specs.Limits.{question_words_max};
ghost use Rattle.question.specs.Readers.{
  ReadsQuestion,
  ReadsOperand,
  ReadsLinks,
  ReadsWhole,
};

use super::token::{Token, next_token, token_start};
use limits::{BRACKETS_MAX, QUESTION_WORDS_MAX};
use refusal::Refusal;

// What was read: the place behind it, and the words up to there, each as often as it stands there.
#[derive(Clone, Copy)]
pub struct Read {
    pub next: usize,
    pub words: usize,
}

// An operand and its links, where `room` brackets may still open and `words` words were read before.
#[cycle(links_operand_question)]
fn question(s: &[u8], room: usize, words: usize, at: usize) -> Result<Read, Refusal>
    requires inside { at ≤ length s.now }
    requires few { words ≤ question_words_max }
    ensures { ReadsQuestion s.now room words at result }
{
    let first = operand(s, room, words, at)?;
    links(s, room, first.words, first.next)
}

#[cycle(links_operand_question)]
fn operand(s: &[u8], room: usize, words: usize, at: usize) -> Result<Read, Refusal>
    requires inside { at ≤ length s.now }
    requires few { words ≤ question_words_max }
    ensures { ReadsOperand s.now room words at result }
{
    let token = next_token(s, at);
    match token {
        Token::Word(start, end) => {
            if words < QUESTION_WORDS_MAX {
                Ok(Read {
                    next: end,
                    words: words + 1,
                })
            } else {
                Err(Refusal::Words(start))
            }
        }
        Token::Open(place) => {
            if room == 0 {
                return Err(Refusal::Brackets(place));
            }
            let part = question(s, room - 1, words, place + 1)?;
            let close = next_token(s, part.next);
            match close {
                Token::Close(end) => Ok(Read {
                    next: end + 1,
                    words: part.words,
                }),
                _ => Err(Refusal::Grammar(token_start(close))),
            }
        }
        _ => Err(Refusal::Grammar(token_start(token))),
    }
}

#[cycle(links_operand_question)]
fn links(s: &[u8], room: usize, words: usize, at: usize) -> Result<Read, Refusal>
    requires inside { at ≤ length s.now }
    requires few { words ≤ question_words_max }
    ensures { ReadsLinks s.now room words at result }
{
    match next_token(s, at) {
        Token::Op(_, _, end) => {
            let next = operand(s, room, words, end)?;
            links(s, room, next.words, next.next)
        }
        _ => Ok(Read { next: at, words }),
    }
}

// Reference 9.1, rows 9 to 11: the one that the reading meets; else how many words there are.
pub fn read_whole(s: &[u8]) -> Result<usize, Refusal>
    ensures { ReadsWhole s.now result }
{
    let read = question(s, BRACKETS_MAX, 0, 0)?;
    let rest = next_token(s, read.next);
    match rest {
        Token::End(_) => Ok(read.words),
        _ => Err(Refusal::Grammar(token_start(rest))),
    }
}

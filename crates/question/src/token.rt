// Reference 6.1: the tokens of a question, found one at a time.
ghost use Rattle.std.specs.Prelude.{◌≡◌, ◌+◌, ◌≤◌, length, drop};
ghost use Rattle.question.specs.Token.{run, spaces};
ghost use Rattle.question.specs.Next.{NextToken, IsRun, start_of, end_of};

pub use word::Op;

// A token with its start, and with the place behind it where it may be longer than one byte; the end, with the length.
#[derive(Clone, Copy)]
pub enum Token {
    End(usize),
    Word(usize, usize),
    Op(Op, usize, usize),
    Open(usize),
    Close(usize),
    Other(usize),
}

// The place behind the run of word bytes that starts at `at`.
pub fn run_end(s: &[u8], at: usize) -> usize
    requires { at ≤ length s.now }
    ensures ends { result ≡ at + run (drop at s.now) }
    ensures inside { result ≤ length s.now }
{
    let rest = &s[at..];
    at + rest
        .iter()
        .position(|&b| !word::word_byte(b))
        .unwrap_or(rest.len())
}

// The first place from `at` on where no space stands.
fn past_spaces(s: &[u8], at: usize) -> usize
    requires { at ≤ length s.now }
    ensures ends { result ≡ at + spaces (drop at s.now) }
    ensures inside { result ≤ length s.now }
{
    let rest = &s[at..];
    at + rest.iter().position(|&b| b != b' ').unwrap_or(rest.len())
}

// The run from `start` to `end` is an operator or a word.
fn run_token(s: &[u8], start: usize, end: usize) -> Token
    requires order { start ≤ end }
    requires inside { end ≤ length s.now }
    ensures { IsRun s.now start end result }
{
    match word::operator_of(&s[start..end]) {
        Some(op) => Token::Op(op, start, end),
        None => Token::Word(start, end),
    }
}

// The first token at or behind `at`.
pub fn next_token(s: &[u8], at: usize) -> Token
    requires { at ≤ length s.now }
    ensures { NextToken s.now at result }
{
    let start = past_spaces(s, at);
    if s.len() <= start {
        return Token::End(start);
    }
    let b = s[start];
    if word::word_byte(b) {
        let end = run_end(s, start);
        return run_token(s, start, end);
    }
    if b == 40 {
        return Token::Open(start);
    }
    if b == 41 {
        return Token::Close(start);
    }
    Token::Other(start)
}

pub fn token_start(token: Token) -> usize
    ensures { result ≡ start_of token }
{
    match token {
        Token::End(start) => start,
        Token::Word(start, _) => start,
        Token::Op(_, start, _) => start,
        Token::Open(start) => start,
        Token::Close(start) => start,
        Token::Other(start) => start,
    }
}

// The place behind the token, which a slice has room for.
pub fn token_end(token: Token) -> usize
    requires { end_of token ≤ 18446744073709551615 }
    ensures { result ≡ end_of token }
{
    match token {
        Token::End(start) => start,
        Token::Word(_, end) => end,
        Token::Op(_, _, end) => end,
        Token::Open(start) => start + 1,
        Token::Close(start) => start + 1,
        Token::Other(start) => start + 1,
    }
}

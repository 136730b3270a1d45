// Reading a question.
use question::token::{Token, next_token, token_end};
use script::number::number32;
use script::output::{Printed, Shown};
use script::part::field;
use script::text::read_text;
use std::fmt::Write;

fn print_place(out: &mut impl Write, token: Token) -> Printed {
    match token {
        Token::Word(start, end) => write!(out, " {start}-{end}"),
        _ => Ok(()),
    }
}

fn print_places(out: &mut impl Write, question: &[u8]) -> Printed {
    let mut at = 0;
    // no `for`: the place goes on behind the token that comes next
    loop {
        let token = next_token(question, at);
        match token {
            Token::End(_) => {
                return Ok(());
            }
            _ => {
                print_place(out, token)?;
                at = token_end(token);
            }
        }
    }
}

fn read_question(out: &mut impl Write, rule: u32, question: &[u8]) -> Printed {
    match question::read_question(rule, question) {
        Ok(words) => {
            write!(out, "0 {words}")?;
            print_places(out, question)
        }
        Err(refusal) => write!(out, "{}", Shown(refusal)),
    }
}

pub fn read(out: &mut impl Write, line: &[u8]) -> Printed {
    let mut question = [0u8; 512];
    let n = read_text(field(line, 2), &mut question);
    read_question(out, number32(field(line, 1)), &question[..n])
}

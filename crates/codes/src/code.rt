// The code of each kind of token.
ghost use Rattle.std.specs.Prelude.{◌≡◌, refl};
ghost use Rattle.codes.specs.declared.code.Code.{Code};
ghost use Rattle.codes.specs.declared.code.Code.TheVariants as kind;
ghost use Rattle.word.specs.declared.Op.TheVariants.{And, Or, Not};
ghost use Rattle.codes.specs.Code.{token_code, number_of, code_by};

use question::token::{Op, Token};

// A token without its place and its bytes.
#[derive(Clone, Copy, PartialEq, Eq)]
pub enum Code {
    Word,
    Op(Op),
    Open,
    Close,
    // a byte that has no place in a question: no token of an accepted one
    Other,
}

// The end has no code of its own.
pub fn token_code(token: Token) -> Code
    ensures { result ≡ token_code token }
{
    match token {
        Token::End(_) => Code::Other,
        Token::Word(_, _) => Code::Word,
        Token::Op(op, _, _) => Code::Op(op),
        Token::Open(_) => Code::Open,
        Token::Close(_) => Code::Close,
        Token::Other(_) => Code::Other,
    }
}

// What stands for a code in a list: the code itself, or its number.
pub trait AsCode: Copy {
    ghost code: { Self → Code };

    ghost written: { Code → Self };

    fn to_code(self) -> Code
        ensures { result ≡ code self };

    fn of_code(c: Code) -> Self
        ensures { result ≡ written c };

    ghost read_back: { (c : Code) → code (written c) ≡ c };
}

impl AsCode for Code {
    ghost code = { λ c. c };

    ghost written = { λ c. c };

    ghost read_back = { λ c. refl };

    fn to_code(self) -> Code {
        self
    }

    fn of_code(c: Code) -> Code {
        c
    }
}

// Every number stands for a code: the numbers above the last one for what has no place in a question.
impl AsCode for u8 {
    ghost code = { code_by };

    ghost written = { number_of };

    ghost read_back = { elim [
      | kind.Word ↦ refl
      | kind.Op And ↦ refl
      | kind.Op Or ↦ refl
      | kind.Op Not ↦ refl
      | kind.Open ↦ refl
      | kind.Close ↦ refl
      | kind.Other ↦ refl
    ] };

    fn to_code(self) -> Code {
        match self {
            0 => Code::Word,
            1 => Code::Op(Op::And),
            2 => Code::Op(Op::Or),
            3 => Code::Op(Op::Not),
            4 => Code::Open,
            5 => Code::Close,
            _ => Code::Other,
        }
    }

    fn of_code(c: Code) -> u8 {
        match c {
            Code::Word => 0,
            Code::Op(Op::And) => 1,
            Code::Op(Op::Or) => 2,
            Code::Op(Op::Not) => 3,
            Code::Open => 4,
            Code::Close => 5,
            Code::Other => 6,
        }
    }
}

// An accepted question made ready: one pass over its tokens writes the code of each, and the entries of each word into its slot.
ghost use Rattle.std.specs.Prelude.{◌≡◌, ◌≤◌, ◌<◌, length};
ghost use Rattle.limits.specs.Limits.{question_words_max};
ghost use Rattle.index.specs.Sound.{Sound};
ghost use Rattle.question.specs.Token.{tokens};
ghost use Rattle.question.specs.Limits.{token_words};
ghost use Rattle.slots.specs.Compile.{StandsFor, HalvesStand, HalvesAlone, WritesCodes, FillsSlots};

use crate::row::{Entries, Indexes, Row};
use codes::code::{AsCode, Code, token_code};
use directory::find::find_word;
use directory::parts::regions_of;
use question::token::{Token, next_token, token_end};

// How many codes were written, and how many slots were filled.
#[derive(Clone, Copy)]
pub struct Compiled {
    pub codes: usize,
    pub slots: usize,
}

// The one entry whose word it is; where the index has no such word, none.
fn entries_for(index: &[u8], word: &[u8]) -> Entries
    requires { Sound index.now }
    ensures { StandsFor index.now word.now result }
{
    match find_word(index, word) {
        Ok(i) => Entries {
            first: i,
            count: 1,
            regions: regions_of(index, i),
        },
        Err(_) => Entries::NONE,
    }
}

// The first `halves` halves of slot k stand for the word.
fn fill_halves(over: Indexes<'_>, halves: usize, word: &[u8], k: usize, row: &mut Row)
    requires main { Sound over.main.now }
    requires arrivals { Sound over.arrivals.now }
    requires both { halves ≤ 2 }
    requires slot { k < question_words_max }
    ensures stand { HalvesStand halves over.entry.main.now over.entry.arrivals.now word.now k row.new.ranges }
    ensures others { HalvesAlone halves k row.old.ranges row.new.ranges }
{
    for half in 0..halves {
        let entries = entries_for(over.half(half), word);
        row.keep_entries(2 * k + half, entries);
    }
}

// Where one index is asked, the arrivals' halves are left as they are, and any index may be lent for them.
pub fn compile<C: AsCode>(
    over: Indexes<'_>,
    halves: usize,
    question: &[u8],
    codes: &mut [C],
    row: &mut Row,
) -> Compiled
    requires main { Sound over.main.now }
    requires arrivals { Sound over.arrivals.now }
    requires both { halves ≤ 2 }
    requires room { length question.now ≤ length codes.old }
    requires few { length (token_words (tokens question.now)) ≤ question_words_max }
    ensures codes { WritesCodes C.written question.now codes.old codes.new result.codes }
    ensures slots { FillsSlots halves over.entry.main.now over.entry.arrivals.now question.now row.old row.new result.slots }
{
    let mut count = 0;
    let mut slots = 0;
    let mut at = 0;
    // no `for`: the place moves by a token, not by one
    loop {
        let token = next_token(question, at);
        match token {
            Token::End(_) => {
                return Compiled {
                    codes: count,
                    slots,
                };
            }
            Token::Word(start, end) => {
                fill_halves(over, halves, &question[start..end], slots, row);
                slots += 1;
                codes[count] = C::of_code(Code::Word);
                count += 1;
                at = end;
            }
            _ => {
                codes[count] = C::of_code(token_code(token));
                count += 1;
                at = token_end(token);
            }
        }
    }
}

// Reference 6: questions, their tokens, the rules, the readers, and the refusals 22 and 6 to 11.
#![tactic(auto)]

ghost use Rattle.std.specs.Prelude.{◌≡◌};
ghost use Rattle.question.specs.Reading.{verdict_of};
ghost use Rattle.question.specs.Readers.{ReadsAnyRule};

use limits::QUESTION_MAX;
use refusal::Refusal;

pub mod faults;
pub mod reader;
pub mod rule;
pub mod token;

// The first refusal of 6 to 11 that holds, or how many words there are: the same by each rule.
fn read_any_rule(question: &[u8]) -> Result<usize, Refusal>
    ensures { ReadsAnyRule question.now result }
{
    if question.len() > QUESTION_MAX {
        return Err(Refusal::QuestionLength(question.len()));
    }
    if let Some(place) = faults::first_foreign(question) {
        return Err(Refusal::QuestionByte(place));
    }
    if let Some(place) = faults::first_long(question) {
        return Err(Refusal::QuestionWord(place));
    }
    reader::read_whole(question)
}

// Reference 8.10: whether the question is accepted, and with how many words; or the first refusal of 22 and 6 to 11 that holds.
#[tactic(auto, using(crate::proofs::ParsedLaws::verdict_named))]
pub fn read_question(rule: u32, question: &[u8]) -> Result<usize, Refusal>
    ensures { result ≡ verdict_of rule question.now }
{
    rule::Rule::try_from(rule)?;
    read_any_rule(question)
}

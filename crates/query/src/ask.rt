// The call that answers a question over an index.
ghost use Rattle.std.specs.Prelude.{◌≡◌, ◌≤◌, length};
ghost use Rattle.limits.specs.Limits.{question_max};
ghost use Rattle.index.specs.Sound.{Sound};
ghost use Rattle.question.specs.Rules.{rule_of};
ghost use Rattle.source.specs.Ask.{Answers, Asks};
ghost use Rattle.slots.specs.Having.{having};
ghost use Rattle.slots.specs.Bound.{slots_intervals};
ghost use Rattle.query.specs.Drive.{AskedBy};
ghost use Rattle.query.specs.Prepared.{last_of, Halves, AnswersHalves, IsAsked, IsReady, ListsReady, IsPrepared, PutsAnswer};

use crate::drive::{Pass, sweep_question};
use codes::code::Code;
use codes::group::{GROUPED_MAX, group_codes};
use index::check::check_index;
use index::trailer::read_trailer;
use limits::QUESTION_MAX;
use list::answer::Tally;
use question::read_question;
use question::rule::AND_FIRST;
use refusal::Refusal;
use slots::bound::slots_sum;
use slots::compile::compile;
use slots::row::{Indexes, Row};

// The highest record of two indexes.
fn highest_of(over: Indexes<'_>) -> u32
    requires main { Sound over.main.now }
    requires arrivals { Sound over.arrivals.now }
    ensures { result ≡ last_of over.entry.main.now over.entry.arrivals.now }
{
    let n = read_trailer(over.main).highest;
    n.max(read_trailer(over.arrivals).highest)
}

// Writes the answer where it has room. The lists of the words have no fewer intervals together: where there is room for those, one pass is enough.
fn put_answer(
    codes: &[Code],
    over: Indexes<'_>,
    row: &mut Row,
    slots: usize,
    out: &mut [u32],
) -> Result<Tally, Refusal>
    requires asked { AskedBy codes.now over.main.now over.arrivals.now row.old slots }
    requires prepared { IsPrepared codes.now (having over.main.now over.arrivals.now row.old) (last_of over.main.now over.arrivals.now) (slots_intervals over.main.now over.arrivals.now row.old.ranges 0 slots) }
    ensures { PutsAnswer codes.now (having over.entry.main.now over.entry.arrivals.now row.old) (last_of over.entry.main.now over.entry.arrivals.now) (slots_intervals over.entry.main.now over.entry.arrivals.now row.old.ranges 0 slots) out.old out.new result }
{
    let n = highest_of(over);
    let room = out.len() / 2;
    let writes = Pass {
        n,
        slots,
        writing: true,
    };
    if slots_sum(over, row, slots) <= room {
        return Ok(sweep_question(codes, over, row, writes, out));
    }
    let counts = Pass {
        n,
        slots,
        writing: false,
    };
    let needed = sweep_question(codes, over, row, counts, out).intervals;
    if room < needed {
        return Err(Refusal::Room(needed));
    }
    Ok(sweep_question(codes, over, row, writes, out))
}

// Answers by the rule. The driver groups from the left: by the second rule it is given codes with the groups in brackets.
fn answer_codes(
    rule: u32,
    codes: &[Code],
    over: Indexes<'_>,
    row: &mut Row,
    slots: usize,
    out: &mut [u32],
) -> Result<Tally, Refusal>
    requires asked { AskedBy codes.now over.main.now over.arrivals.now row.old slots }
    requires short { length codes.now ≤ question_max }
    requires ready { IsReady (rule_of rule) codes.now (having over.main.now over.arrivals.now row.old) (last_of over.main.now over.arrivals.now) slots }
    ensures { ListsReady (rule_of rule) codes.now (having over.entry.main.now over.entry.arrivals.now row.old) (last_of over.entry.main.now over.entry.arrivals.now) slots out.old out.new result }
{
    // a number and no `Rule`: what is promised is said of the number (`rule_of rule`), and `read_question` has accepted it
    if rule == AND_FIRST {
        let mut grouped = [Code::Word; GROUPED_MAX];
        let count = group_codes(codes, &mut grouped);
        return put_answer(&grouped[0..count], over, row, slots, out);
    }
    put_answer(codes, over, row, slots, out)
}

// Answers an accepted question over one index or two: where it is one, no slot has entries of the arrivals.
fn answer_accepted(
    over: Indexes<'_>,
    halves: usize,
    rule: u32,
    question: &[u8],
    out: &mut [u32],
) -> Result<Tally, Refusal>
    requires halves { Halves halves over.main.now over.arrivals.now }
    requires asked { IsAsked rule question.now }
    ensures { AnswersHalves halves over.entry.main.now over.entry.arrivals.now rule question.now out.old out.new result }
{
    let mut codes = [Code::Word; QUESTION_MAX];
    let mut row = Row::blank();
    let compiled = compile(over, halves, question, &mut codes, &mut row);
    let count = compiled.codes;
    let slots = compiled.slots;
    answer_codes(rule, &codes[0..count], over, &mut row, slots, out)
}

// Answers a question over one index or two that are sound.
fn answer_halves(
    over: Indexes<'_>,
    halves: usize,
    rule: u32,
    question: &[u8],
    out: &mut [u32],
) -> Result<Tally, Refusal>
    requires halves { Halves halves over.main.now over.arrivals.now }
    ensures { AnswersHalves halves over.entry.main.now over.entry.arrivals.now rule question.now out.old out.new result }
{
    read_question(rule, question)?;
    answer_accepted(over, halves, rule, question, out)
}

// Reference 8.10: answers a question over an index that is sound. It is lent as both, and the first half alone is asked.
pub fn answer_question(
    index: &[u8],
    rule: u32,
    question: &[u8],
    out: &mut [u32],
) -> Result<Tally, Refusal>
    requires { Sound index.now }
    ensures { Answers rule index.now question.now out.old out.new result }
{
    let over = Indexes {
        main: index,
        arrivals: index,
    };
    answer_halves(over, 1, rule, question, out)
}

// Reference 8.6: answers a question over any bytes; the index is checked first.
pub fn ask(index: &[u8], rule: u32, question: &[u8], out: &mut [u32]) -> Result<Tally, Refusal>
    ensures { Asks rule index.now question.now out.old out.new result }
{
    check_index(index)?;
    answer_question(index, rule, question, out)
}

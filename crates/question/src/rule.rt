// Reference 6.3: the rules by which a question is grouped, and their numbers.
ghost use Rattle.std.specs.Prelude.{◌≡◌};
ghost use Rattle.question.specs.Rules.{is_rule};
ghost use Rattle.question.specs.Named.{IsNamed};

use refusal::Refusal;

// Equal ranks, from the left.
pub const FROM_LEFT: u32 = 1;

// `and` and `not` before `or`.
pub const AND_FIRST: u32 = 2;

#[derive(Clone, Copy, PartialEq, Eq)]
pub enum Rule {
    FromLeft,
    AndFirst,
}

// The rule of a number; what is no rule's is refused by 22.
impl TryFrom<u32> for Rule {
    type Error = Refusal;

    ghost try_from_gives = { IsNamed };

    fn try_from(rule: u32) -> Result<Rule, Refusal> {
        match rule {
            FROM_LEFT => Ok(Rule::FromLeft),
            AND_FIRST => Ok(Rule::AndFirst),
            _ => Err(Refusal::RuleNumber(rule)),
        }
    }
}

pub fn is_rule(rule: u32) -> bool
    ensures { result ≡ is_rule rule }
{
    (rule == FROM_LEFT) | (rule == AND_FIRST)
}

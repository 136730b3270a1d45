// Two senses under an operator: what they say together, and how long that stays so.
ghost use Rattle.word.specs.declared.Op.{Op};
ghost use Rattle.senses.specs.Look.{Opposite, Both, Paired};

use list::sense::Sense;
use question::token::Op;

fn opposite(a: Sense) -> Sense
    ensures { Opposite a result }
{
    Sense {
        inside: !a.inside,
        until: a.until,
    }
}

// In as long as both are; out as long as either side is that is out.
fn both(a: Sense, b: Sense) -> Sense
    ensures { Both a b result }
{
    if a.inside {
        if b.inside {
            if a.until < b.until {
                return a;
            }
            return b;
        }
        return b;
    }
    if b.inside {
        return a;
    }
    if a.until < b.until {
        return b;
    }
    a
}

fn pair_by(op: Op, a: Sense, b: Sense) -> Sense
    ensures { Paired op a b result }
{
    match op {
        Op::And => both(a, b),
        Op::Or => opposite(both(opposite(a), opposite(b))),
        Op::Not => both(a, opposite(b)),
    }
}

// By an operator, or by what stands for one, as a number does.
pub fn pair_senses<O: Into<Op>>(op: O, a: Sense, b: Sense) -> Sense
    ensures { (o : Op) × O.converts op o × Paired o a b result }
{
    pair_by(op.into(), a, b)
}

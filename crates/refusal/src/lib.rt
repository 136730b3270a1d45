// The numbered refusals: which rule failed first, and where. Every call of every crate above refuses with one of these.
#![tactic(auto)]

ghost use Rattle.std.specs.Prelude.{◌≡◌};
ghost use Rattle.refusal.specs.Refusal.{number_of, value_of};

#[derive(Clone, Copy)]
pub enum Refusal {
    IndexLength(usize),
    IndexEdition(u32),
    IndexTrailer,
    IndexEntry(usize),
    IndexList(usize),
    QuestionLength(usize),
    QuestionByte(usize),
    QuestionWord(usize),
    Grammar(usize),
    Words(usize),
    Brackets(usize),
    Room(usize),
    Lists(usize),
    EntryNumber(usize),
    Number(usize),
    Interval(usize),
    BuildWord(usize),
    BuildCount(usize),
    BuildSize(usize),
    ProbeRange,
    NoWord(usize),
    RuleNumber(u32),
}

// Reference 9.1: the refusal's number.
pub fn number_of(refusal: Refusal) -> u64
    ensures { result ≡ number_of refusal }
{
    match refusal {
        Refusal::IndexLength(_) => 1,
        Refusal::IndexEdition(_) => 2,
        Refusal::IndexTrailer => 3,
        Refusal::IndexEntry(_) => 4,
        Refusal::IndexList(_) => 5,
        Refusal::QuestionLength(_) => 6,
        Refusal::QuestionByte(_) => 7,
        Refusal::QuestionWord(_) => 8,
        Refusal::Grammar(_) => 9,
        Refusal::Words(_) => 10,
        Refusal::Brackets(_) => 11,
        Refusal::Room(_) => 12,
        Refusal::Lists(_) => 13,
        Refusal::EntryNumber(_) => 14,
        Refusal::Number(_) => 15,
        Refusal::Interval(_) => 16,
        Refusal::BuildWord(_) => 17,
        Refusal::BuildCount(_) => 18,
        Refusal::BuildSize(_) => 19,
        Refusal::ProbeRange => 20,
        Refusal::NoWord(_) => 21,
        Refusal::RuleNumber(_) => 22,
    }
}

// Reference 9.1: its value.
pub fn value_of(refusal: Refusal) -> u64
    ensures { result ≡ value_of refusal }
{
    match refusal {
        Refusal::IndexLength(length) => length as u64,
        Refusal::IndexEdition(edition) => edition as u64,
        Refusal::IndexTrailer => 0,
        Refusal::IndexEntry(entry) => entry as u64,
        Refusal::IndexList(entry) => entry as u64,
        Refusal::QuestionLength(length) => length as u64,
        Refusal::QuestionByte(place) => place as u64,
        Refusal::QuestionWord(place) => place as u64,
        Refusal::Grammar(place) => place as u64,
        Refusal::Words(place) => place as u64,
        Refusal::Brackets(place) => place as u64,
        Refusal::Room(needed) => needed as u64,
        Refusal::Lists(count) => count as u64,
        Refusal::EntryNumber(place) => place as u64,
        Refusal::Number(place) => place as u64,
        Refusal::Interval(interval) => interval as u64,
        Refusal::BuildWord(word) => word as u64,
        Refusal::BuildCount(count) => count as u64,
        Refusal::BuildSize(which) => which as u64,
        Refusal::ProbeRange => 0,
        Refusal::NoWord(place) => place as u64,
        Refusal::RuleNumber(rule) => rule as u64,
    }
}

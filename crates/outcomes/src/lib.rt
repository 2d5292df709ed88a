// Why a call is turned down, and the verdicts: the enums that every entry answers with, and the numbers they stand for.
#![tactic(auto)]

ghost use Rattle.std.specs.Prelude.{◌≡◌};
ghost use Rattle.outcomes.specs.Numbers.{refusal_no, outcome_no, verdict_no};

// One case for each rule of the table, in the table's order. 19, 20, 22 and 23 have none.
#[derive(Clone, Copy, Debug, PartialEq, Eq)]
pub enum Refusal {
    Short,
    Mark,
    Version,
    Counts,
    Assumption,
    Length,
    Byte,
    Values,
    Leftover,
    Circular,
    Letter,
    Closed,
    Full,
    NoRound,
    Storage,
    Extent,
    Line,
    Record,
    RoundSet,
    OutputSet,
}

// The verdict on an output in a round, or at a closing: false or true in every completion, open where they differ, broken where there is
// no completion.
#[derive(Clone, Copy, Debug, PartialEq, Eq)]
pub enum Verdict {
    False,
    True,
    Open,
    Broken,
}

impl From<Refusal> for u32 {
    ghost from_gives = { λ r n. n ≡ refusal_no r };

    fn from(r: Refusal) -> u32 {
        match r {
            Refusal::Short => 1,
            Refusal::Mark => 2,
            Refusal::Version => 3,
            Refusal::Counts => 4,
            Refusal::Assumption => 5,
            Refusal::Length => 6,
            Refusal::Byte => 7,
            Refusal::Values => 8,
            Refusal::Leftover => 9,
            Refusal::Circular => 10,
            Refusal::Letter => 11,
            Refusal::Closed => 12,
            Refusal::Full => 13,
            Refusal::NoRound => 14,
            Refusal::Storage => 15,
            Refusal::Extent => 16,
            Refusal::Line => 17,
            Refusal::Record => 18,
            Refusal::RoundSet => 21,
            Refusal::OutputSet => 24,
        }
    }
}

impl From<Verdict> for u32 {
    ghost from_gives = { λ v n. n ≡ verdict_no v };

    fn from(v: Verdict) -> u32 {
        match v {
            Verdict::False => 0,
            Verdict::True => 1,
            Verdict::Open => 2,
            Verdict::Broken => 3,
        }
    }
}

// 0 where nothing is broken, else the rule's number.
pub fn outcome_number(outcome: Result<(), Refusal>) -> u32
    ensures { result ≡ outcome_no outcome }
{
    match outcome {
        Ok(()) => 0,
        Err(r) => u32::from(r),
    }
}

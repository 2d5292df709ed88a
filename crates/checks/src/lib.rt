// What a round, a closing or a question about a set of outputs is refused for, behind the rules of its sheet.
#![tactic(auto)]

ghost use Rattle.std.specs.Prelude.{◌≤◌};
ghost use Rattle.outcomes.specs.Decided.{Decided};
ghost use Rattle.checks.specs.JournalChecks.{journal_rules, heard_rules, end_rules, named_rules, round_rules, closing_rules, together_rules};

use outcomes::Refusal;
use record::JournalRecord;

// Rules 15, 18 and 12, for n outputs and `lent` numbers of storage.
fn check_journal(n: u8, lent: usize, r: JournalRecord) -> Result<(), Refusal>
    requires { n ≤ 7 }
    ensures { Decided (journal_rules n lent r) result }
{
    if lent < JournalRecord::STORAGE_WORDS {
        return Err(Refusal::Storage);
    }
    if !record::record_ok(r, n as usize) {
        return Err(Refusal::Record);
    }
    if r.closed {
        return Err(Refusal::Closed);
    }
    Ok(())
}

// Rules 21 and 13, for m inputs.
fn check_heard(m: u8, r: JournalRecord, letters: u64) -> Result<(), Refusal>
    requires { m ≤ 6 }
    ensures { Decided (heard_rules m r letters) result }
{
    if letters::bad_set(m, letters) {
        return Err(Refusal::RoundSet);
    }
    if JournalRecord::MAX_ROUNDS <= r.rounds {
        return Err(Refusal::Full);
    }
    Ok(())
}

// Rule 14.
fn check_end(r: JournalRecord) -> Result<(), Refusal>
    ensures { Decided (end_rules r) result }
{
    if r.rounds == 0 {
        return Err(Refusal::NoRound);
    }
    Ok(())
}

// Rules 24 and 14, for n outputs.
fn check_named(n: u8, r: JournalRecord, outputs: u8) -> Result<(), Refusal>
    requires { n ≤ 7 }
    ensures { Decided (named_rules n r outputs) result }
{
    let beyond = outputs >> n;
    if beyond != 0 {
        return Err(Refusal::OutputSet);
    }
    check_end(r)
}

// A round: 15, 18, 12, 21, 13.
pub fn check_round(m: u8, n: u8, lent: usize, r: JournalRecord, letters: u64) -> Result<(), Refusal>
    requires { (m ≤ 6) × (n ≤ 7) }
    ensures { Decided (round_rules m n lent r letters) result }
{
    check_journal(n, lent, r)?;
    check_heard(m, r, letters)
}

// A closing: 15, 18, 12, 14.
pub fn check_closing(n: u8, lent: usize, r: JournalRecord) -> Result<(), Refusal>
    requires { n ≤ 7 }
    ensures { Decided (closing_rules n lent r) result }
{
    check_journal(n, lent, r)?;
    check_end(r)
}

// A question about a set of outputs: 15, 18, 12, 24, 14.
pub fn check_together(n: u8, lent: usize, r: JournalRecord, outputs: u8) -> Result<(), Refusal>
    requires { n ≤ 7 }
    ensures { Decided (together_rules n lent r outputs) result }
{
    check_journal(n, lent, r)?;
    check_named(n, r, outputs)
}

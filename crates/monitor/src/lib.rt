// Preparation, rounds and closing of a journal, each on the bytes of the sheet. With `_on` in its name: the same with a sheet that was accepted, which
// callers have to show, so that a long journal reads it once. Those are no entries, but what the entries and the journal program share.
#![tactic(auto)]

ghost use Rattle.std.specs.Prelude.{◌≡◌, List, ℕ, replicate};
ghost use Rattle.outcomes.specs.Numbers.{untold};
ghost use Rattle.circular.specs.SheetChecks.{AcceptedSheet};
ghost use Rattle.record.specs.Record.{Fresh};
ghost use Rattle.monitor.specs.Entries.{PrepareCall, RoundCall, CloseCall};

use effects::{ClosingAnswer, PrepareAnswer, RoundAnswer};
use outcomes::{Refusal, Verdict};
use record::JournalRecord;
use sheet::Sheet;

fn refused_round(e: Refusal, r: JournalRecord) -> RoundAnswer
    ensures { (result.outcome ≡ Err e) × (result.record ≡ r) × (result.verdicts ≡ replicate 7 untold) }
{
    RoundAnswer {
        outcome: Err(e),
        record: r,
        verdicts: [Verdict::False; 7],
    }
}

fn refused_closing(e: Refusal, r: JournalRecord) -> ClosingAnswer
    ensures { (result.outcome ≡ Err e) × (result.record ≡ r) × (result.verdicts ≡ replicate 7 untold) × (result.shares ≡ replicate 7 0) }
{
    ClosingAnswer {
        outcome: Err(e),
        record: r,
        verdicts: [Verdict::False; 7],
        shares: [0; 7],
    }
}

fn refused_preparation(e: Refusal) -> PrepareAnswer
    ensures { (result.outcome ≡ Err e) × Fresh result.record × (result.live ≡ 0) × (result.reach ≡ 0) }
{
    PrepareAnswer {
        outcome: Err(e),
        record: JournalRecord::fresh(),
        live: 0,
        reach: 0,
    }
}

// ---- Preparation

pub fn prepare_on(x: &Sheet, storage: &mut [u64]) -> PrepareAnswer
    ensures { (bs : List ℕ) → AcceptedSheet bs x.now → PrepareCall bs storage.old storage.new result }
{
    let needed = JournalRecord::STORAGE_WORDS;
    if storage.len() < needed {
        return refused_preparation(Refusal::Storage);
    }
    effects::preparation(x, storage)
}

// Prepares the storage for journals of a sheet: the live pairs, their number and their exact reach.
pub fn prepare(sheet: &[u8], storage: &mut [u64]) -> PrepareAnswer
    ensures { PrepareCall sheet.now storage.old storage.new result }
{
    match &circular::accept_sheet(sheet) {
        Ok(x) => prepare_on(x, storage),
        Err(e) => refused_preparation(*e),
    }
}

// ---- Rounds

pub fn round_on(x: &Sheet, storage: &mut [u64], r: JournalRecord, letters: u64) -> RoundAnswer
    ensures { (bs : List ℕ) → AcceptedSheet bs x.now → RoundCall bs storage.old storage.new r letters result }
{
    let outcome = checks::check_round(x.inputs, x.outputs, storage.len(), r, letters);
    match outcome {
        Ok(()) => effects::round(x, storage, r, letters),
        Err(e) => refused_round(e, r),
    }
}

// One round of a journal: its letter is one of the set, in which bit l is letter l.
pub fn round(sheet: &[u8], storage: &mut [u64], before: JournalRecord, letters: u64) -> RoundAnswer
    ensures { RoundCall sheet.now storage.old storage.new before letters result }
{
    match &circular::accept_sheet(sheet) {
        Ok(x) => round_on(x, storage, before, letters),
        Err(e) => refused_round(*e, before),
    }
}

// ---- Closing

pub fn close_on(x: &Sheet, storage: &[u64], r: JournalRecord) -> ClosingAnswer
    ensures { (bs : List ℕ) → AcceptedSheet bs x.now → CloseCall bs storage.now r result }
{
    let outcome = checks::check_closing(x.outputs, storage.len(), r);
    match outcome {
        Ok(()) => effects::closing(x, storage, r),
        Err(e) => refused_closing(e, r),
    }
}

// Closes a journal: the verdicts over the completions that end here, and each output's share.
pub fn close(sheet: &[u8], storage: &[u64], before: JournalRecord) -> ClosingAnswer
    ensures { CloseCall sheet.now storage.now before result }
{
    match &circular::accept_sheet(sheet) {
        Ok(x) => close_on(x, storage, before),
        Err(e) => refused_closing(*e, before),
    }
}

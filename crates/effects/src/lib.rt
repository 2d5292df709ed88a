// What an accepted preparation, round and closing do, with a sheet that can be used.
#![tactic(auto)]

ghost use Rattle.std.specs.Prelude.{◌≡◌, true, List, ℕ, ◌+◌, ◌^◌, ◌<◌, ◌≤◌, length};
ghost use Rattle.outcomes.specs.Outcome.{unbroken};
ghost use Rattle.words.specs.Bits.{bit};
ghost use Rattle.record.specs.Record.{max_rounds, record_ok};
ghost use Rattle.sheet.specs.Reading.{rule_sheet};
ghost use Rattle.completions.specs.Completion.{members};
ghost use Rattle.pairs.specs.Storage.{storage_words, live, reached};
ghost use Rattle.lanes.specs.Sheets.{sheet_by};
ghost use Rattle.rounds.specs.Rows.{among};
ghost use Rattle.rounds.specs.Round.{Rounded};
ghost use Rattle.effects.specs.Results.{next_set, Prepared, RoundDone, ClosingDone, Shares};

use lanes::Equations;
use outcomes::{Refusal, Verdict};
use pairs::{STORAGE_WORDS, Storage};
use record::JournalRecord;
use sheet::Sheet;
use words::Size;

// The answers have an outcome beside what comes with it and are no Results: what comes with a refusal is promised too
// (`monitor/specs/Entries.antt`), and the first demand speaks of it. What is lent may have any length from 3,084 numbers on, as callers have it.

// What preparation answers: a fresh record, the number of live pairs and their exact reach; where it is refused, 0 and 0.
#[derive(Clone, Copy)]
pub struct PrepareAnswer {
    pub outcome: Result<(), Refusal>,
    pub record: JournalRecord,
    pub live: u32,
    pub reach: u32,
}

// What a round answers: the record after it and each output's verdict. Where it is refused, the record is the one handed in and the
// verdicts are false; so are those of outputs that the sheet doesn't have.
#[derive(Clone, Copy)]
pub struct RoundAnswer {
    pub outcome: Result<(), Refusal>,
    pub record: JournalRecord,
    pub verdicts: [Verdict; 7],
}

// What a closing answers: the same for a journal that ends here, its record closed, with each output's share.
#[derive(Clone, Copy)]
pub struct ClosingAnswer {
    pub outcome: Result<(), Refusal>,
    pub record: JournalRecord,
    pub verdicts: [Verdict; 7],
    pub shares: [u32; 7],
}

// The live pairs, their number and their exact reach.
pub fn preparation(x: &Sheet, storage: &mut [u64]) -> PrepareAnswer
    requires { storage_words ≤ length storage.old }
    ensures { (result.outcome ≡ unbroken) × Prepared (rule_sheet x.now) storage.old storage.new result }
{
    let found = preparation::prepare(storage, &Equations::of(x), x.assumed);
    PrepareAnswer {
        outcome: Ok(()),
        record: JournalRecord::fresh(),
        live: found.live as u32,
        reach: found.reach as u32,
    }
}

// One step of the reached set: in the first round, known by the record's rounds, from the live set, and later from the set before.
// Later rounds have a test of their own: the edit `settled_in_round_one` turns it into one that no round passes.
fn step(words: &mut Storage, equations: &Equations, rounds: u32, letters: u64)
    ensures { (ks : List ℕ) → Rounded equations.now.size.valuations words.old words.new (next_set (sheet_by equations.now ks) (live words.old) rounds (reached words.old) (among letters)) }
{
    if rounds == 0 {
        rounds::first_round(words, equations, letters);
        return;
    }
    let before = rounds;
    if 0 < before {
        rounds::later_round(words, equations, letters);
    }
}

// The step, each output's verdict and its count. The round's letter is one of the set: bit l of the word is letter l.
pub fn round(x: &Sheet, storage: &mut [u64], r: JournalRecord, letters: u64) -> RoundAnswer
    requires { (storage_words ≤ length storage.old) × (record_ok x.now.outputs r ≡ true) × (r.rounds < max_rounds) }
    ensures { (result.outcome ≡ unbroken) × RoundDone (rule_sheet x.now) storage.old storage.new r (members letters) result }
{
    let words = storage.first_chunk_mut::<STORAGE_WORDS>().unwrap();
    let equations = Equations::of(x);
    let heard = letters::repeated(letters, equations.size.inputs);
    step(words, &equations, r.rounds, heard);
    let verdicts = verdicts::round_verdicts(words, equations.size, heard);
    RoundAnswer {
        outcome: Ok(()),
        record: record::with_round(r, equations.size.outputs, verdicts),
        verdicts,
    }
}

// Each output's share; 0 for outputs that the sheet doesn't have.
fn shares(r: &JournalRecord, n: usize) -> [u32; 7]
    requires { (n ≤ 7) × (record_ok n r.now ≡ true) × (1 ≤ r.now.rounds) }
    ensures { Shares n r.now result }
{
    let mut out = [0u32; 7];
    for k in 0..n {
        out[k] = record::share_of(r.counts[4 * k], r.rounds);
    }
    out
}

// The verdicts over the pairs that end here, and the shares.
pub fn closing(x: &Sheet, storage: &[u64], r: JournalRecord) -> ClosingAnswer
    requires { (storage_words ≤ length storage.now) × (record_ok x.now.outputs r ≡ true) × (1 ≤ r.rounds) }
    ensures { (result.outcome ≡ unbroken) × ClosingDone (rule_sheet x.now) storage.now r result }
{
    let size = Size::new(x.inputs as usize, x.outputs as usize);
    ClosingAnswer {
        outcome: Ok(()),
        record: JournalRecord {
            rounds: r.rounds,
            closed: true,
            counts: r.counts,
        },
        verdicts: verdicts::closing_verdicts(pairs::in_front(storage), size),
        shares: shares(&r, size.outputs),
    }
}

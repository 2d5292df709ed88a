// Questions about a journal, after the rounds heard, on the bytes of the sheet. They only read: no storage is written, and no record comes back.
#![tactic(auto)]

ghost use Rattle.std.specs.Prelude.{◌≡◌, List, ℕ};
ghost use Rattle.circular.specs.SheetChecks.{AcceptedSheet};
ghost use Rattle.queries.specs.Together.{TogetherCall};

use outcomes::{Refusal, Verdict};
use record::JournalRecord;
use sheet::Sheet;
use words::Size;

// What a question about a set of outputs is answered: the verdict on all of them being true in the last round. Where it is refused, false.
// That is promised, so the outcome stands beside the verdict and is no Result.
#[derive(Clone, Copy)]
pub struct TogetherAnswer {
    pub outcome: Result<(), Refusal>,
    pub verdict: Verdict,
}

fn refused(e: Refusal) -> TogetherAnswer
    ensures { (result.outcome ≡ Err e) × (result.verdict ≡ Verdict.False) }
{
    TogetherAnswer {
        outcome: Err(e),
        verdict: Verdict::False,
    }
}

// With a sheet that was accepted.
fn together_on(x: &Sheet, storage: &[u64], r: JournalRecord, outputs: u8) -> TogetherAnswer
    ensures { (bs : List ℕ) → AcceptedSheet bs x.now → TogetherCall bs storage.now r outputs result }
{
    match checks::check_together(x.outputs, storage.len(), r, outputs) {
        Ok(()) => {
            let size = Size::new(x.inputs as usize, x.outputs as usize);
            TogetherAnswer {
                outcome: Ok(()),
                verdict: verdicts::set_verdict(pairs::in_front(storage), size, outputs),
            }
        }
        Err(e) => refused(e),
    }
}

// Whether all outputs of a set, bit k being output k, are true together in the last round.
pub fn together(sheet: &[u8], storage: &[u64], before: JournalRecord, outputs: u8) -> TogetherAnswer
    ensures { TogetherCall sheet.now storage.now before outputs result }
{
    match &circular::accept_sheet(sheet) {
        Ok(x) => together_on(x, storage, before, outputs),
        Err(e) => refused(*e),
    }
}

// Whole-trace evaluation: the bytes of the outputs, round by round, are refreshed in place until they satisfy all equations.
#![tactic(auto)]

ghost use Rattle.std.specs.Prelude.{OnOk, IsTrue, ◌↔◌, ℕ, ◌^◌, ◌<◌, ◌≤◌, length, get_or};
ghost use Rattle.outcomes.specs.Decided.{Decided};
ghost use Rattle.sheet.specs.Reading.{rule_sheet};
ghost use Rattle.circular.specs.Circular.{CircularSheet};
ghost use Rattle.trace.specs.EvaluationChecks.{run_checks};
ghost use Rattle.trace.specs.Evaluated.{OutputsWritten, EvaluateCall};
ghost use Rattle.trace.specs.Passes.{Ready, Left};

use outcomes::Refusal;
use sheet::Sheet;

mod order; // order.rt: the order in which places are refreshed
mod place; // place.rt: one output in one round
mod sweep; // sweep.rt: passes and sweeps over all places

const MAX_LETTERS: usize = 4096;

// Whether some letter isn't below 2 ^ m.
fn has_bad_letter(letters: &[u8], m: u8) -> bool
    requires { m ≤ 6 }
    ensures { IsTrue result ↔ ((i : ℕ) × (i < length letters.now) × (2 ^ m ≤ get_or letters.now i 0)) }
{
    let bound = 1 << m;
    letters.iter().any(|letter| bound <= *letter)
}

// Rules 16 and 11, for m inputs and a buffer of `room` bytes.
fn check_run(m: u8, letters: &[u8], room: usize) -> Result<(), Refusal>
    requires { m ≤ 6 }
    ensures decided { Decided (run_checks m letters.now room) result }
    ensures ready { OnOk result (Ready m letters.now room) }
{
    let rounds = letters.len();
    let most = MAX_LETTERS;
    if rounds == 0 || most < rounds || room < rounds {
        return Err(Refusal::Extent);
    }
    if has_bad_letter(letters, m) {
        return Err(Refusal::Letter);
    }
    Ok(())
}

// Writes the output bytes of a sheet that was accepted.
fn fill(x: &Sheet, letters: &[u8], out: &mut [u8])
    requires level { CircularSheet (rule_sheet x.now) → ⊥ }
    requires ready { Ready x.now.inputs letters.now (length out.old) }
    ensures { OutputsWritten (rule_sheet x.now) letters.now out.old out.new }
{
    let masks = circular::reads::sheet_masks(x);
    let rounds = letters.len();
    out[..rounds].fill(0);
    sweep::solve(x, letters, &mut out[..rounds], &masks);
}

fn run(x: &Sheet, letters: &[u8], out: &mut [u8]) -> Result<(), Refusal>
    requires { CircularSheet (rule_sheet x.now) → ⊥ }
    ensures decided { Decided (run_checks x.now.inputs letters.now (length out.old)) result }
    ensures left { Left (rule_sheet x.now) letters.now out.old out.new result }
{
    check_run(x.inputs, letters, out.len())?;
    fill(x, letters, out);
    Ok(())
}

// Evaluates a sheet over letters: for each letter the byte whose bit k is output k.
pub fn evaluate(sheet: &[u8], letters: &[u8], out: &mut [u8]) -> Result<(), Refusal>
    ensures { EvaluateCall sheet.now letters.now out.old out.new result }
{
    let accepted = circular::accept_sheet(sheet)?;
    run(&accepted, letters, out)
}

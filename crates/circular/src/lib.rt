// Rule 10, and with it rules 1 to 10 of a sheet: a sheet is circular exactly if some value of some trace reaches itself by reads.
#![tactic(auto)]

ghost use Rattle.std.specs.Prelude.{IfOk};
ghost use Rattle.outcomes.specs.Outcome.{as_outcome};
ghost use Rattle.outcomes.specs.Decided.{Decided};
ghost use Rattle.circular.specs.SheetChecks.{sheet_checks, AcceptedSheet};

use outcomes::Refusal;
use sheet::Sheet;

pub mod reads; // reads.rt: the reads between the outputs of a sheet
mod table; // table.rt: the check on a table of reads

// Reads a sheet and checks it by rules 1 to 10.
pub fn accept_sheet(s: &[u8]) -> Result<Sheet, Refusal>
    ensures decided { Decided (sheet_checks s.now) (as_outcome result) }
    ensures sheet { IfOk result (AcceptedSheet s.now) }
{
    let read = reader::read_sheet(s);
    if let Ok(sheet) = &read {
        let outputs = sheet.outputs as usize;
        let words = reads::all_reads(&sheet.code, &sheet.len, outputs);
        let circular = table::circular(&words, sheet.inputs, outputs);
        let level = !circular;
        if !level {
            return Err(Refusal::Circular);
        }
    }
    read
}

// Whether a sheet is accepted, or the first rule that it breaks.
pub fn check_sheet(s: &[u8]) -> Result<(), Refusal>
    ensures { Decided (sheet_checks s.now) result }
{
    accept_sheet(s)?;
    Ok(())
}

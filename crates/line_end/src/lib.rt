// The end of a line: the call that it stands for is answered, and the answer written. Buffer and place stay two parameters, as in `buffer`.
#![tactic(auto)]

ghost use Rattle.std.specs.Prelude.{◌≡◌, true, false, cond, List, ℕ, None, Some, ◌+◌, ◌≤◌, length};
ghost use Rattle.outcomes.specs.declared.Refusal.TheVariants.{Closed, Line};
ghost use Rattle.buffer.specs.Wrote.{Placed};
ghost use Rattle.sheet.specs.Reading.{rule_sheet, when_accepted};
ghost use Rattle.circular.specs.SheetChecks.{AcceptedSheet};
ghost use Rattle.claims.specs.Book.{Book, round, closing};
ghost use Rattle.claims.specs.Session.{held, round_says, closing_says};
ghost use Rattle.text.specs.Text.{line_refusal};
ghost use Rattle.line_scan.specs.Lines.{calls, read_line, asked, asks};
ghost use Rattle.line_scan.specs.Meaning.{line_of};
ghost use Rattle.line_end.specs.Printed.{next_line};
ghost use Rattle.line_end.specs.LineEnd.{Serves, Answered, LineEnded, most_bytes, due};

use effects::{ClosingAnswer, RoundAnswer};
use line_scan::Meaning;
use outcomes::Refusal;
use record::JournalRecord;

mod accepted; // accepted.rt: a sheet that passed all of its rules

pub use accepted::Accepted;

// A line: its number, and the journal's record before it.
#[derive(Clone, Copy)]
pub struct Place {
    pub line: u64,
    pub record: JournalRecord,
}

// The next line, none if the run is over, and the place in the buffer after what was written.
#[derive(Clone, Copy)]
pub struct Ended {
    pub next: Option<Place>,
    pub at: usize,
}

fn next_line(line: u64) -> u64
    ensures { result ≡ next_line line }
{
    if line < u64::MAX { line + 1 } else { line }
}

// A refusal ends the run.
fn refused_line(e: Refusal, line: u64, out: &mut [u8], at: usize) -> Ended
    requires { at + 40 ≤ length out.old }
    ensures { (result.next ≡ None) × (result.at ≤ at + 40) × Placed out.old at (line_refusal e line) out.new result.at }
{
    Ended {
        next: None,
        at: text::line_refusal(out, at, e, line),
    }
}

fn answer_round(x: &Accepted, storage: &mut [u64], r: JournalRecord, letters: u64) -> RoundAnswer
    ensures by_the_book { (sheet : List ℕ) (b : Book) → AcceptedSheet sheet x.now.sheet → Serves sheet (rule_sheet x.now.sheet) b (held storage.old r) → Answered sheet (rule_sheet x.now.sheet) b (round letters) (round_says x.now.sheet.outputs result result.outcome) (held storage.new result.record) }
    ensures done { when_accepted result.outcome (result.record.closed ≡ r.closed) }
{
    monitor::round_on(&x.sheet, storage, r, letters)
}

fn answer_closing(x: &Accepted, storage: &[u64], r: JournalRecord) -> ClosingAnswer
    ensures by_the_book { (sheet : List ℕ) (b : Book) → AcceptedSheet sheet x.now.sheet → Serves sheet (rule_sheet x.now.sheet) b (held storage.now r) → Answered sheet (rule_sheet x.now.sheet) b closing (closing_says x.now.sheet.outputs result result.outcome) (held storage.now result.record) }
    ensures done { when_accepted result.outcome ((r.closed ≡ false) × (result.record.closed ≡ true) × (result.record.counts ≡ r.counts) × (length result.shares ≡ 7)) }
{
    monitor::close_on(&x.sheet, storage, r)
}

// A line that stands for a round.
fn round_line(
    x: &Accepted,
    place: Place,
    letters: u64,
    storage: &mut [u64],
    out: &mut [u8],
    at: usize,
) -> Ended
    requires { at + most_bytes place.record.closed + 8 ≤ length out.old }
    ensures ended { (sheet : List ℕ) (b : Book) (part : List ℕ) → AcceptedSheet sheet x.now.sheet → Serves sheet (rule_sheet x.now.sheet) b (held storage.old place.record) → asks (rule_sheet x.now.sheet) b part ≡ calls (round letters) → LineEnded sheet (rule_sheet x.now.sheet) b place.line part out.old at out.new storage.new result }
    ensures bound { result.at + due result.next ≤ at + most_bytes place.record.closed + 8 }
{
    let a = answer_round(x, storage, place.record, letters);
    if let Err(e) = a.outcome {
        return refused_line(e, place.line, out, at);
    }
    let n = x.sheet.outputs as usize;
    Ended {
        next: Some(Place {
            line: next_line(place.line),
            record: a.record,
        }),
        at: text::verdict_line(out, at, &a.verdicts[..n]),
    }
}

// A line that closes the journal.
fn closing_line(x: &Accepted, place: Place, storage: &[u64], out: &mut [u8], at: usize) -> Ended
    requires { at + most_bytes place.record.closed + 8 ≤ length out.old }
    ensures ended { (sheet : List ℕ) (b : Book) (part : List ℕ) → AcceptedSheet sheet x.now.sheet → Serves sheet (rule_sheet x.now.sheet) b (held storage.now place.record) → asks (rule_sheet x.now.sheet) b part ≡ calls closing → LineEnded sheet (rule_sheet x.now.sheet) b place.line part out.old at out.new storage.now result }
    ensures bound { result.at + due result.next ≤ at + most_bytes place.record.closed + 8 }
{
    let a = answer_closing(x, storage, place.record);
    if let Err(e) = a.outcome {
        return refused_line(e, place.line, out, at);
    }
    let n = x.sheet.outputs as usize;
    Ended {
        next: Some(Place {
            line: next_line(place.line),
            record: a.record,
        }),
        at: text::closing(out, at, &a.verdicts[..n], &place.record.counts, &a.shares),
    }
}

// A line that is neither blank nor a call: after closing it is refused as any other line is.
fn malformed_line(place: Place, out: &mut [u8], at: usize) -> Ended
    requires { at + 40 ≤ length out.old }
    ensures { (result.next ≡ None) × (result.at ≤ at + 40) × Placed out.old at (line_refusal (cond place.record.closed Closed Line) place.line) out.new result.at }
{
    if place.record.closed {
        return refused_line(Refusal::Closed, place.line, out, at);
    }
    refused_line(Refusal::Line, place.line, out, at)
}

// A line is at its end, and this is what it asks for.
pub fn line_end(
    x: &Accepted,
    place: Place,
    meaning: Meaning,
    storage: &mut [u64],
    out: &mut [u8],
    at: usize,
) -> Ended
    requires { at + most_bytes place.record.closed + 8 ≤ length out.old }
    ensures ended { (sheet : List ℕ) (b : Book) (part : List ℕ) → AcceptedSheet sheet x.now.sheet → Serves sheet (rule_sheet x.now.sheet) b (held storage.old place.record) → asked x.now.sheet.inputs place.record.closed (read_line x.now.sheet.inputs part) ≡ line_of meaning → LineEnded sheet (rule_sheet x.now.sheet) b place.line part out.old at out.new storage.new result }
    ensures bound { result.at + due result.next ≤ at + most_bytes place.record.closed + 8 }
{
    match meaning {
        Meaning::Blank => Ended {
            next: Some(Place {
                line: next_line(place.line),
                record: place.record,
            }),
            at,
        },
        Meaning::Round(letters) => round_line(x, place, letters, storage, out, at),
        Meaning::Closing => closing_line(x, place, storage, out, at),
        Meaning::Malformed => malformed_line(place, out, at),
    }
}

// The line protocol of the journal program.
#![tactic(auto)]

ghost use Rattle.std.specs.Prelude.{◌+◌, ◌*◌, ◌≤◌, IfErr, IfOk, IfSome, Some, length, take};
ghost use Rattle.pairs.specs.Storage.{storage_words};
ghost use Rattle.line_scan.specs.Scan.{InTable};
ghost use Rattle.protocol.specs.Machine.{Begun, Goes, Finishes};

use letter_table::LetterTable;
use line_end::{Accepted, Place};
use line_scan::{Lookup, Pending};

// Where a run stands that is not over: at which line, and what has come of it.
#[derive(Clone, Copy)]
pub struct Progress {
    pub place: Place,
    pub pending: Pending,
}

// A run: its sheet, and where it stands.
#[derive(Clone, Copy)]
pub struct Started {
    pub sheet: Accepted,
    pub state: Progress,
}

// Where the run stands after a chunk, none if it is over, and how many bytes were written.
#[derive(Clone, Copy)]
pub struct Fed {
    pub next: Option<Progress>,
    pub at: usize,
}

// Accepts the sheet and prepares the storage. Or puts a refusal of the sheet into `out`, answers its length, and there is nothing to run.
pub fn start(sheet: &[u8], storage: &mut [u64], out: &mut [u8]) -> Result<Started, usize>
    requires { (storage_words ≤ length storage.old) × (40 ≤ length out.old) }
    ensures begun { Begun sheet.now result storage.new out.new }
    ensures bound { IfErr result (λ at. at ≤ length out.new) }
    ensures in_table { IfOk result (λ started. InTable started.state.pending) }
{
    match circular::accept_sheet(sheet) {
        Err(e) => Err(text::sheet_refusal(out, 0, e)),
        Ok(x) => {
            let prepared = monitor::prepare_on(&x, storage);
            let place = Place {
                line: 1,
                record: prepared.record,
            };
            Ok(Started {
                sheet: Accepted { sheet: x },
                state: Progress {
                    place,
                    pending: Pending::empty(),
                },
            })
        }
    }
}

// Takes a chunk of the input in where the run is not over.
fn feed_running(
    x: &Accepted,
    table: &LetterTable,
    s: Progress,
    storage: &mut [u64],
    chunk: &[u8],
    out: &mut [u8],
) -> Fed
    requires { (8 * length chunk.now + 462 ≤ length out.old) × InTable s.pending }
    ensures goes { Goes x.now.sheet (Some s) storage.old chunk.now result.next storage.new (take result.at out.new) }
    ensures bound { result.at ≤ length out.new }
    ensures in_table { IfSome result.next (λ running. InTable running.pending) }
{
    let by = Lookup {
        table: *table,
        inputs: x.sheet.inputs,
    };
    let mut place = s.place;
    let mut pending = s.pending;
    let mut at = 0;
    for b in chunk {
        let line_feed = b'\n';
        if *b != line_feed {
            pending = pending.scan(by, *b);
            continue;
        }
        let meaning = pending.asked(by, place.record.closed);
        let e = line_end::line_end(x, place, meaning, storage, out, at);
        at = e.at;
        let Some(next) = e.next else {
            return Fed { next: None, at };
        };
        place = next;
        pending = Pending::empty();
    }
    Fed {
        next: Some(Progress { place, pending }),
        at,
    }
}

// Takes a chunk of the input in, and puts what is to be written for it into `out`: nothing for a run that is over.
pub fn feed(
    x: &Accepted,
    table: &LetterTable,
    s: Option<Progress>,
    storage: &mut [u64],
    chunk: &[u8],
    out: &mut [u8],
) -> Fed
    requires { (8 * length chunk.now + 462 ≤ length out.old) × IfSome s (λ running. InTable running.pending) }
    ensures goes { Goes x.now.sheet s storage.old chunk.now result.next storage.new (take result.at out.new) }
    ensures bound { result.at ≤ length out.new }
    ensures in_table { IfSome result.next (λ running. InTable running.pending) }
{
    match s {
        Some(running) => feed_running(x, table, running, storage, chunk, out),
        None => Fed { next: None, at: 0 },
    }
}

// The last line of a run that is not over.
fn finish_running(
    x: &Accepted,
    table: &LetterTable,
    s: Progress,
    storage: &mut [u64],
    out: &mut [u8],
) -> usize
    requires { (470 ≤ length out.old) × InTable s.pending }
    ensures finishes { Finishes x.now.sheet (Some s) storage.old (take result out.new) }
    ensures bound { result ≤ length out.new }
{
    if s.pending.is_blank() {
        return 0;
    }
    let by = Lookup {
        table: *table,
        inputs: x.sheet.inputs,
    };
    let meaning = s.pending.asked(by, s.place.record.closed);
    let e = line_end::line_end(x, s.place, meaning, storage, out, 0);
    e.at
}

// The input is at its end: a last line may lack its line feed.
pub fn finish(
    x: &Accepted,
    table: &LetterTable,
    s: Option<Progress>,
    storage: &mut [u64],
    out: &mut [u8],
) -> usize
    requires { (470 ≤ length out.old) × IfSome s (λ running. InTable running.pending) }
    ensures finishes { Finishes x.now.sheet s storage.old (take result out.new) }
    ensures bound { result ≤ length out.new }
{
    match s {
        Some(running) => finish_running(x, table, running, storage, out),
        None => 0,
    }
}

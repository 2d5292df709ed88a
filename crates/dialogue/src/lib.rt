// The program's talk with the system: which call is due, and what its answer makes of the run. Nothing here calls the system.
#![tactic(auto)]

ghost use Rattle.std.specs.Prelude.{◌+◌, ◌*◌, ◌≤◌, ◌≡◌, ◌<◌, ◌^◌, None, Some, [], length};
ghost use Rattle.pairs.specs.Storage.{storage_words};
ghost use Rattle.dialogue.specs.History.{replied, came};
ghost use Rattle.dialogue.specs.Talks.{Talks, Steps, Told, Wants, Within};
ghost use Rattle.dialogue.specs.declared.Dialogue.{Dialogue};
ghost use Rattle.protocol.specs.declared.Started.{Started};

use letter_table::LetterTable;
use protocol::Started;

// The numbers of the errors after which a call is made again.
const EINTR: i32 = 4;

const EAGAIN: i32 = 11;

// What the system said to a call: how many bytes it moved, or why none. No `Result`: of these four only the last ends a run.
#[derive(Clone, Copy)]
pub enum Reply {
    Moved(usize),
    Interrupted,
    NotReady,
    Failed,
}

// How a run of the program ends: with all that is to be written, with an input or an output that failed, or before its end. No `Result`: for
// each of the four it is said what has gone out.
#[derive(Clone, Copy)]
pub enum End {
    Whole,
    InputFailed,
    OutputFailed,
    Unfinished,
}

// Where the talk stands: the run, none if nothing more is to be read, and which bytes of the output's buffer are still to be written.
#[derive(Clone, Copy)]
pub struct Dialogue {
    pub run: Option<Started>,
    pub from: usize,
    pub to: usize,
}

impl Reply {
    // What a read or a write returned, and the error's number, which counts where it returned less than 0. No From: these are two.
    pub fn of(got: isize, error: i32) -> Reply
        ensures { result ≡ replied got error }
    {
        if got >= 0 {
            return Reply::Moved(got as usize);
        }
        match error {
            EINTR => Reply::Interrupted,
            EAGAIN => Reply::NotReady,
            _ => Reply::Failed,
        }
    }
}

// The beginning, with the bytes of the sheet.
pub fn open(sheet: &[u8], storage: &mut [u64], out: &mut [u8]) -> Dialogue
    requires { (storage_words ≤ length storage.old) × (40 ≤ length out.old) }
    ensures talks { Talks sheet.now result storage.new out.new [] }
    ensures within { Within result out.new }
    ensures wants { Wants result }
{
    match protocol::start(sheet, storage, out) {
        Ok(run) => Dialogue {
            run: Some(run),
            from: 0,
            to: 0,
        },
        Err(to) => Dialogue {
            run: None,
            from: 0,
            to,
        },
    }
}

// A read brought these bytes, none at the end of the input: what they earn is in `out`, to be written. Nothing is earned where the run is over.
pub fn heard(
    d: &mut Dialogue,
    table: &LetterTable,
    storage: &mut [u64],
    chunk: &[u8],
    out: &mut [u8],
)
    requires { (8 * length chunk.now + 470 ≤ length out.old) × Wants d.old }
    ensures steps { (r : Started) → d.old.run ≡ Some r → d.old.to ≤ d.old.from → Steps d.old storage.old out.old (came chunk.now) d.new storage.new out.new }
    ensures over { d.old.run ≡ None → (d.new.run ≡ None) × (d.new.to ≡ d.new.from) × (storage.new ≡ storage.old) }
    ensures within { Within d.new out.new }
    ensures wants { Wants d.new }
{
    d.from = 0;
    d.to = 0;
    let at_end = chunk.len() == 0;
    if let Some(run) = &mut d.run {
        if at_end {
            d.to = protocol::finish(&run.sheet, table, Some(run.state), storage, out);
            d.run = None;
            return;
        }
        let fed = protocol::feed(&run.sheet, table, Some(run.state), storage, chunk, out);
        d.to = fed.at;
        match fed.next {
            Some(state) => run.state = state,
            None => d.run = None,
        }
    }
}

// A write took the next n bytes of what was pending from `from` on: where what is pending begins now.
pub fn told(from: usize, n: usize) -> usize
    requires { from + n < 2 ^ 64 }
    ensures told { (d : Dialogue) → d.from ≡ from → from + n ≤ d.to → Told d n (record { run = d.run; from = result; to = d.to }) }
    ensures left { result ≡ from + n }
{
    from + n
}

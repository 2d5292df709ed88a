// The journal program: makes the calls of the system that are due, and hands what they gave to the crate `dialogue`.
#![tactic(auto)]

ghost use Rattle.std.specs.Prelude.{◌+◌, ◌*◌, ◌≤◌, ◌≡◌, Some, length};
ghost use Rattle.dialogue.specs.History.{Served};
ghost use Rattle.dialogue.specs.Talks.{Wants, Within};
ghost use Rattle.protocol.specs.declared.Started.{Started};
ghost use Rattle.journal.specs.Turns.{MovesAtMost, Answers, Wrote, Read, goes_on, end_of, Goes, Serves, Added, Gave};

use dialogue::{Dialogue, End, Reply};
use letter_table::LetterTable;
use record::JournalRecord;
use std::fs::File;
use std::io;
use std::io::{ErrorKind, Read, Write};

// The system, and the error of the last call of it that failed.
#[derive(Drop)]
struct System {
    rt: HostRuntime,
    error: io::Error,
}

// What the system said to the call of a turn, and how it ends, unless it goes on.
#[derive(Clone, Copy)]
struct Turned {
    reply: Reply,
    end: Option<End>,
}

// How a run ended, how many calls went before its end, and where the talk then stood.
#[derive(Clone, Copy)]
struct Ended {
    end: End,
    calls: u64,
    dialogue: Dialogue,
}

// Why the sheet's file gave no bytes.
#[derive(Clone, Copy)]
enum LoadError {
    Missing,
    Unopened,
    Unread,
}

// How many bytes the sheet's file gave, what the system said last, and how many reads there were.
#[derive(Clone, Copy)]
struct Reading {
    loaded: Result<usize, LoadError>,
    reply: Reply,
    calls: u64,
}

impl System {
    // One read of standard input.
    fn read(&mut self, bytes: &mut [u8]) -> Reply
        ensures { MovesAtMost result (length bytes.new) }
    {
        let answer = self.rt.stdin().read(bytes);
        self.reply(answer)
    }

    // One write to standard output.
    fn write(&mut self, bytes: &[u8]) -> Reply
        ensures { MovesAtMost result (length bytes.now) }
    {
        let answer = self.rt.stdout().write(bytes);
        self.reply(answer)
    }

    // What a read or a write said. Its error is kept.
    fn reply(&mut self, answer: io::Result<usize>) -> Reply
        ensures { Answers answer result }
    {
        match answer {
            Ok(n) => Reply::Moved(n),
            Err(error) => {
                self.error = error;
                Reply::of(-1, error.raw_os_error().unwrap_or(0))
            }
        }
    }
}

// Writes what is pending, or a part of it. A write that took nothing was not ready.
fn write(system: &mut System, d: &mut Dialogue, out: &[u8]) -> Reply
    requires { Within d.old out.now }
    ensures wrote { Wrote d.old out.now result d.new }
    ensures within { Within d.new out.now × (d.new.run ≡ d.old.run) }
{
    let reply = system.write(&out[d.from..d.to]);
    match reply {
        Reply::Moved(n) => {
            if n == 0 {
                return Reply::NotReady;
            }
            d.from = dialogue::told(d.from, n);
            reply
        }
        _ => reply,
    }
}

// Reads once, and has what came answered in `out`.
fn read(
    system: &mut System,
    table: &LetterTable,
    d: &mut Dialogue,
    storage: &mut [u64],
    buf: &mut [u8],
    out: &mut [u8],
) -> Reply
    requires { (8 * length buf.old + 470 ≤ length out.old) × Within d.old out.old × Wants d.old × (d.old.to ≤ d.old.from) }
    ensures read { (run : Started) → d.old.run ≡ Some run → Read d.old storage.old out.old buf.new result d.new storage.new out.new }
    ensures within { Within d.new out.new }
    ensures wants { Wants d.new }
{
    let reply = system.read(buf);
    match reply {
        Reply::Moved(n) => {
            dialogue::heard(d, table, storage, &buf[..n], out);
            reply
        }
        _ => reply,
    }
}

// Waits where the call was not ready; whether it went well, or is to be made again.
fn wait(system: &System, reply: Reply) -> bool
    ensures { result ≡ goes_on reply }
{
    match reply {
        Reply::Moved(_) => true,
        Reply::Interrupted => true,
        Reply::NotReady => {
            delay::pause(&system.rt);
            true
        }
        Reply::Failed => false,
    }
}

// How a run ends where a call went well, or didn't.
fn end_of(going: bool, end: End) -> Option<End>
    ensures { result ≡ end_of going end }
{
    if going { None } else { Some(end) }
}

// Makes the call that is due, if one is.
fn turn(
    system: &mut System,
    table: &LetterTable,
    d: &mut Dialogue,
    storage: &mut [u64],
    buf: &mut [u8],
    out: &mut [u8],
) -> Turned
    requires { (8 * length buf.old + 470 ≤ length out.old) × Within d.old out.old × Wants d.old }
    ensures turned { Goes d.old storage.old out.old buf.new result d.new storage.new out.new result.end }
    ensures within { Within d.new out.new }
    ensures wants { Wants d.new }
{
    if d.from < d.to {
        let reply = write(system, d, out);
        let going = wait(system, reply);
        return Turned {
            reply,
            end: end_of(going, End::OutputFailed),
        };
    }
    if let Some(_) = &d.run {
        let reply = read(system, table, d, storage, buf, out);
        let going = wait(system, reply);
        return Turned {
            reply,
            end: end_of(going, End::InputFailed),
        };
    }
    Turned {
        reply: Reply::Moved(0),
        end: Some(End::Whole),
    }
}

// All turns. A proved loop has to end, and nothing says that the input does, so the calls are counted.
fn run(system: &mut System, start: Dialogue, storage: &mut [u64], out: &mut [u8]) -> Ended
    requires { (64470 ≤ length out.old) × Within start out.old × Wants start }
    ensures { Serves start storage.old out.old result storage.new out.new }
{
    let sets = letter_table::sets();
    let table = LetterTable { entries: &sets };
    let mut buf = [0u8; 8000];
    let mut d = start;
    for calls in 0..u64::MAX {
        let turned = turn(system, &table, &mut d, storage, &mut buf, out);
        if let Some(end) = turned.end {
            return Ended {
                end,
                calls,
                dialogue: d,
            };
        }
    }
    Ended {
        end: End::Unfinished,
        calls: u64::MAX,
        dialogue: d,
    }
}

// Answers standard input by the bytes of a sheet.
fn serve(system: &mut System, sheet: &[u8]) -> Ended
    ensures { Served sheet.now result.calls result.end }
{
    let mut storage = [0u64; JournalRecord::STORAGE_WORDS];
    let mut out = [0u8; 65536];
    let start = dialogue::open(sheet, &mut storage, &mut out);
    run(system, start, &mut storage, &mut out)
}

// Reads once more, behind the n bytes that came before.
fn read_more(system: &mut System, file: &mut File, bytes: &mut [u8], n: usize) -> Reply
    requires { n ≤ length bytes.old }
    ensures { Added bytes.old n bytes.new result }
{
    let answer = file.read(&mut bytes[n..]);
    system.reply(answer)
}

// Reads until `bytes` is full or the file is at its end.
fn read_file(system: &mut System, file: &mut File, bytes: &mut [u8]) -> Reading
    ensures { Gave result.loaded result.reply bytes.new result.calls }
{
    let mut n = 0;
    for calls in 0..u64::MAX {
        if n == bytes.len() {
            return Reading {
                loaded: Ok(n),
                reply: Reply::NotReady,
                calls,
            };
        }
        let reply = read_more(system, file, bytes, n);
        if let Reply::Moved(k) = reply {
            if k == 0 {
                return Reading {
                    loaded: Ok(n),
                    reply,
                    calls: calls + 1,
                };
            }
            n += k;
            continue;
        }
        if !wait(system, reply) {
            let loaded = Err(LoadError::Unread);
            return Reading {
                loaded,
                reply,
                calls: calls + 1,
            };
        }
    }
    let loaded = if n < bytes.len() {
        Err(LoadError::Unread)
    } else {
        Ok(n)
    };
    Reading {
        loaded,
        reply: Reply::NotReady,
        calls: u64::MAX,
    }
}

// The first bytes of the sheet's file, which std opens, again where a signal came in between. It is closed before anything else is
// read, as it may have taken the place of standard input.
fn load(system: &mut System, bytes: &mut [u8]) -> Reading
    ensures { Gave result.loaded result.reply bytes.new result.calls }
{
    let opened = File::open(&system.rt, "sheet.slr");
    match opened {
        Ok(mut file) => read_file(system, &mut file, bytes),
        Err(error) => {
            system.error = error;
            let why = if error.kind() == ErrorKind::NotFound {
                LoadError::Missing
            } else {
                LoadError::Unopened
            };
            Reading {
                loaded: Err(why),
                reply: Reply::Failed,
                calls: 0,
            }
        }
    }
}

// Says on standard error what failed, if anything did.
fn report(system: &System, end: End) {
    match end {
        End::Whole => {}
        End::InputFailed => {
            fail(system, "journal: cannot read standard input");
        }
        End::OutputFailed => {
            fail(system, "journal: cannot write standard output");
        }
        End::Unfinished => {
            let _ = eprintln!(system.rt; "journal: stopped before the end of the input");
        }
    }
}

fn fail(system: &System, what: &str) {
    failures::fail(&system.rt, what, system.error);
}

fn answer(system: &mut System, sheet: &[u8]) {
    let ended = serve(system, sheet);
    report(system, ended.end);
}

// A missing sheet counts as an empty one.
fn main(rt: HostRuntime) {
    let mut system = System {
        rt,
        error: io::Error::from(ErrorKind::Other),
    };
    let mut sheet = [0u8; 464];
    let reading = load(&mut system, &mut sheet);
    match reading.loaded {
        Ok(n) => answer(&mut system, &sheet[..n]),
        Err(LoadError::Missing) => answer(&mut system, &[]),
        Err(LoadError::Unopened) => fail(&system, "journal: cannot open sheet.slr"),
        Err(LoadError::Unread) => fail(&system, "journal: cannot read sheet.slr"),
    }
}

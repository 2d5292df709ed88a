// Runs many sessions of the journal program, one after the other, through the crate `protocol`.
//
// A case in standard input is the length of a sheet in two bytes, the sheet, the length of a session in four bytes, the session.
// Lengths have their low byte first. A sheet has at most 464 bytes, a session at most 65,535. After the text of each case comes a
// line `--`. The first case that is cut short or too long ends the run, and nothing is written for it.
#![tactic(auto)]

ghost use Rattle.std.specs.Prelude.{◌+◌, ◌≤◌, ◌<◌, IfSome, length};
ghost use Rattle.pairs.specs.Storage.{storage_words};
ghost use Rattle.line_scan.specs.Scan.{InTable};

use letter_table::LetterTable;
use protocol::Started;
use record::JournalRecord;
use std::io;
use std::io::Read;

// The number with these two bytes.
fn number(low: u8, high: u8) -> usize {
    usize::from(low) + 256 * usize::from(high)
}

// Fills buf with the next bytes of the input.
fn read_full(rt: HostRuntime, buf: &mut [u8]) -> io::Result<()> {
    rt.stdin().read_exact(buf)
}

// Reads the next n bytes of the input to the start of buf, and answers n.
fn read_part(rt: HostRuntime, n: usize, buf: &mut [u8]) -> Option<usize>
    ensures { IfSome result (λ k. k ≤ length buf.new) }
{
    if n > buf.len() {
        return None;
    }
    read_full(rt, &mut buf[..n]).ok()?;
    Some(n)
}

fn read_sheet(rt: HostRuntime, sheet: &mut [u8]) -> Option<usize>
    ensures { IfSome result (λ k. k ≤ length sheet.new) }
{
    let mut head = [0u8; 2];
    read_full(rt, &mut head).ok()?;
    read_part(rt, number(head[0], head[1]), sheet)
}

fn read_session(rt: HostRuntime, session: &mut [u8]) -> Option<usize>
    ensures { IfSome result (λ k. k ≤ length session.new) }
{
    let mut head = [0u8; 4];
    read_full(rt, &mut head).ok()?;
    if head[2] != 0 || head[3] != 0 {
        return None;
    }
    read_part(rt, number(head[0], head[1]), session)
}

// How many bytes to feed at this place of a session, of which so many are left. From 0 on, the sizes 1 to 10 come in a mixed order.
fn chunk_size(at: usize, left: usize) -> usize
    requires { 0 < left }
    ensures { (0 < result) × (result ≤ 11) × (result ≤ left) }
{
    (at % 11 + 1).min(left)
}

// Feeds a session in small chunks.
fn play(
    rt: HostRuntime,
    run: &Started,
    table: &LetterTable,
    storage: &mut [u64],
    session: &[u8],
    out: &mut [u8],
)
    requires { (600 ≤ length out.old) × InTable run.now.state.pending }
{
    let mut state = Some(run.state);
    let mut at = 0;
    // The chunks' sizes differ: they hang on the place.
    while at < session.len() {
        let n = chunk_size(at, session.len() - at);
        let next = at + n;
        let fed = protocol::feed(&run.sheet, table, state, storage, &session[at..next], out);
        let to = fed.at;
        let _ = rt.write_all(&out[..to]);
        state = fed.next;
        at = next;
    }
    let to = protocol::finish(&run.sheet, table, state, storage, out);
    let _ = rt.write_all(&out[..to]);
}

// What the journal program writes for a sheet's file and a session. The storage is as the case before left it.
fn answer(
    rt: HostRuntime,
    table: &LetterTable,
    sheet: &[u8],
    session: &[u8],
    storage: &mut [u64],
    out: &mut [u8],
)
    requires { (storage_words ≤ length storage.old) × (600 ≤ length out.old) }
{
    match protocol::start(sheet, storage, out) {
        Ok(run) => play(rt, &run, table, storage, session, out),
        Err(to) => {
            let _ = rt.write_all(&out[..to]);
        }
    }
}

// Reads a case and answers it. There is none if the input or the output is at its end.
fn case(
    rt: HostRuntime,
    table: &LetterTable,
    sheet: &mut [u8],
    session: &mut [u8],
    storage: &mut [u64],
    out: &mut [u8],
) -> Option<()>
    requires { (storage_words ≤ length storage.old) × (600 ≤ length out.old) }
{
    let m = read_sheet(rt, sheet)?;
    let n = read_session(rt, session)?;
    answer(rt, table, &sheet[..m], &session[..n], storage, out);
    rt.write_all(b"--\n").ok()
}

// All cases. A proved loop has to end, and nothing says that the input does, so the cases are counted.
fn main(rt: HostRuntime) {
    let sets = letter_table::sets();
    let table = LetterTable { entries: &sets };
    let mut sheet = [0u8; 464];
    let mut session = [0u8; 65536];
    let mut storage = [0u64; JournalRecord::STORAGE_WORDS];
    let mut out = [0u8; 4096];
    for _ in 0..u64::MAX {
        let done = case(rt, &table, &mut sheet, &mut session, &mut storage, &mut out);
        if done.is_none() {
            return;
        }
    }
}

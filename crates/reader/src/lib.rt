// Reads a rule sheet: its header, and each output's expression as its own stretch of the sheet. Rules 1 to 9.
#![tactic(auto)]

ghost use Rattle.std.specs.Prelude.{◌≡◌, ◌+◌, ◌≤◌, length, drop, OnOk};
ghost use Rattle.outcomes.specs.Outcome.{as_outcome};
ghost use Rattle.sheet.specs.Header.{mark_ok, version_of, assumed_at, header_of};
ghost use Rattle.sheet.specs.RuleSheet.{read_sheet, read_outputs};
ghost use Rattle.sheet.specs.Reading.{trees_of, reading_of};
ghost use Rattle.reader.specs.Answer.{output_at, outputs_by, Put, PackedOutputs};

use outcomes::Refusal;
use sheet::{Grammar, Header, OutputNo, Sheet};

#[tactic(auto, unfolding(sheet::specs::Header::mark_ok))]
fn has_mark(s: &[u8]) -> bool
    requires { 8 ≤ length s.now }
    ensures { result ≡ mark_ok s.now }
{
    s[0] == b'S' && s[1] == b'L' && s[2] == b'R'
}

fn version(s: &[u8]) -> u64
    requires { 8 ≤ length s.now }
    ensures { result ≡ version_of s.now }
{
    u64::from(s[3]) + 256 * u64::from(s[4])
}

fn read_assumed(byte: u8, n: u8) -> Result<Option<OutputNo>, Refusal>
    ensures { result ≡ assumed_at byte n }
{
    if byte == 255 {
        return Ok(None);
    }
    if byte < n {
        Ok(Some(OutputNo(byte)))
    } else {
        Err(Refusal::Assumption)
    }
}

fn read_header(s: &[u8]) -> Result<Header, Refusal>
    ensures { result ≡ header_of s.now }
{
    if s.len() < 8 {
        return Err(Refusal::Short);
    }
    if !has_mark(s) {
        return Err(Refusal::Mark);
    }
    if !sheet::version_fits(version(s)) {
        return Err(Refusal::Version);
    }
    let inputs = s[5];
    let outputs = s[6];
    if !sheet::counts_fit(inputs, outputs) {
        return Err(Refusal::Counts);
    }
    let assumed = read_assumed(s[7], outputs)?;
    Ok(Header {
        inputs,
        outputs,
        assumed,
    })
}

// Reads the output whose length byte is at a place of the sheet, and answers that length. The expression reader is handed its stretch alone.
fn read_output(s: &[u8], at: usize, grammar: Grammar) -> Result<usize, Refusal>
    ensures { result ≡ output_at grammar (drop at s.now) }
{
    if s.len() <= at {
        return Err(Refusal::Length);
    }
    let len = s[at] as usize;
    if len < 1 {
        return Err(Refusal::Length);
    }
    let most = 64;
    if most < len {
        return Err(Refusal::Length);
    }
    let start = at + 1;
    if s.len() - start < len {
        return Err(Refusal::Length);
    }
    let end = start + len;
    sheet::read_expression(&s[start..end], grammar)?;
    Ok(len)
}

// Copies e into the buffer, from a place on.
fn put(buffer: &mut [u8], from: usize, e: &[u8])
    requires { from + length e.now ≤ length buffer.old }
    ensures { Put from e.now buffer.old buffer.new }
{
    let to = from + e.len();
    buffer[from..to].copy_from_slice(e);
}

// Reads the outputs, from byte 8 on, and what is left after them. Output k's expression goes to the code from 64 k on: memory is fixed, so a sheet has
// room for the longest of all.
fn read_outputs(
    s: &[u8],
    grammar: Grammar,
    n: u8,
    len: &mut [usize; 7],
    code: &mut [u8; 448],
) -> Result<(), Refusal>
    requires { (8 ≤ length s.now) × (n ≤ 7) }
    ensures reading { outputs_by result (trees_of grammar.streams code.new len.new n) ≡ read_outputs grammar n (drop 8 s.now) }
    ensures held { OnOk result (PackedOutputs grammar.streams n len.new code.new) }
{
    let mut at = 8;
    for k in 0..n as usize {
        let bytes = read_output(s, at, grammar)?;
        let from = at + 1;
        at = from + bytes;
        len[k] = bytes;
        put(code, 64 * k, &s[from..at]);
    }
    if at < s.len() {
        return Err(Refusal::Leftover);
    }
    Ok(())
}

// Reads a whole sheet.
pub fn read_sheet(s: &[u8]) -> Result<Sheet, Refusal>
    ensures { reading_of result ≡ read_sheet s.now }
{
    let header = read_header(s)?;
    let Header {
        inputs,
        outputs,
        assumed,
    } = header;
    let grammar = Grammar {
        version: version(s),
        streams: inputs + outputs,
    };
    let mut len = [0usize; 7];
    let mut code = [0u8; 448];
    read_outputs(s, grammar, outputs, &mut len, &mut code)?;
    Ok(Sheet {
        inputs,
        outputs,
        assumed,
        len,
        code,
    })
}

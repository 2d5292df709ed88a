// What the program prints, put into a buffer. Each function answers the place after it. Buffer and place stay two parameters, as in `buffer`.
#![tactic(auto)]

ghost use Rattle.std.specs.Prelude.{◌≡◌, ◌∷◌, ◌++◌, ◌+◌, ◌*◌, ◌<◌, ◌≤◌, length};
ghost use Rattle.outcomes.specs.Numbers.{refusal_no};
ghost use Rattle.buffer.specs.Decimal.{decimal};
ghost use Rattle.buffer.specs.Wrote.{Placed};
ghost use Rattle.record.specs.Record.{count_at};
ghost use Rattle.text.specs.Text.{verdict_char, verdict_line, spaced, tally_line, tally_lines, closing_text, refused_word, line_refusal, sheet_refusal};

use buffer::{byte, bytes, decimal};
use outcomes::{Refusal, Verdict};
use sheet::OutputNo;

// A verdict's character. No From: neither type is of this crate.
fn verdict_char(v: Verdict) -> u8
    ensures { result ≡ verdict_char v }
{
    match v {
        Verdict::False => b'0',
        Verdict::True => b'1',
        Verdict::Open => b'?',
        Verdict::Broken => b'!',
    }
}

// Verdicts, and a line feed.
pub fn verdict_line(out: &mut [u8], at: usize, verdicts: &[Verdict]) -> usize
    requires { at + length verdicts.now + 1 ≤ length out.old }
    ensures placed { Placed out.old at (verdict_line verdicts.now) out.new result }
    ensures value { result ≡ at + length verdicts.now + 1 }
{
    let mut to = at;
    for verdict in verdicts {
        to = byte(out, to, verdict_char(*verdict));
    }
    byte(out, to, b'\n')
}

// A space, and a number of at most 10 digits.
#[tactic(auto, using(buffer::proofs::DecimalLaws::half_word_digits))]
fn spaced(out: &mut [u8], at: usize, n: u32) -> usize
    requires { at + 11 ≤ length out.old }
    ensures placed { Placed out.old at (spaced n) out.new result }
    ensures upper_bound { result ≤ at + 11 }
{
    let to = byte(out, at, b' ');
    decimal(out, to, u64::from(n))
}

// `#`, a space and the number of output k, a digit.
fn output_number(out: &mut [u8], at: usize, k: OutputNo) -> usize
    requires { (k.0 < 7) × (at + 12 ≤ length out.old) }
    ensures placed { Placed out.old at (35 ∷ spaced k.0) out.new result }
    ensures value { result ≡ at + 3 }
{
    let to = byte(out, at, b'#');
    spaced(out, to, u32::from(k.0))
}

// The tally line of output k: at most 3 + 5 * 11 + 1 bytes.
fn tally_line(out: &mut [u8], at: usize, counts: &[u32], shares: &[u32], k: OutputNo) -> usize
    requires { (k.0 < 7) × (length counts.now ≡ 28) × (length shares.now ≡ 7) × (at + 59 ≤ length out.old) }
    ensures placed { Placed out.old at (tally_line (count_at counts.now) shares.now k.0) out.new result }
    ensures upper_bound { result ≤ at + 59 }
{
    let index = k.0 as usize;
    let first = 4 * index;
    let output = output_number(out, at, k);
    let trues = spaced(out, output, counts[first]);
    let falses = spaced(out, trues, counts[first + 1]);
    let opens = spaced(out, falses, counts[first + 2]);
    let brokens = spaced(out, opens, counts[first + 3]);
    let share = spaced(out, brokens, shares[index]);
    byte(out, share, b'\n')
}

// The tally lines of the first n outputs.
fn tally_lines(out: &mut [u8], at: usize, counts: &[u32], shares: &[u32], n: usize) -> usize
    requires { (n ≤ 7) × (length counts.now ≡ 28) × (length shares.now ≡ 7) × (at + 59 * n ≤ length out.old) }
    ensures placed { Placed out.old at (tally_lines (count_at counts.now) shares.now 0 n) out.new result }
    ensures upper_bound { result ≤ at + 59 * n }
{
    let mut to = at;
    for k in 0..n {
        to = tally_line(out, to, counts, shares, OutputNo(k as u8));
    }
    to
}

// A closing, with a verdict for each output: at most 1 + 8 + 7 * 59 bytes.
pub fn closing(
    out: &mut [u8],
    at: usize,
    verdicts: &[Verdict],
    counts: &[u32],
    shares: &[u32],
) -> usize
    requires { (length verdicts.now ≤ 7) × (length counts.now ≡ 28) × (length shares.now ≡ 7) × (at + 422 ≤ length out.old) }
    ensures placed { Placed out.old at (closing_text (length verdicts.now) verdicts.now (count_at counts.now) shares.now) out.new result }
    ensures upper_bound { result ≤ at + 422 }
{
    let start = byte(out, at, b'=');
    let line = verdict_line(out, start, verdicts);
    tally_lines(out, line, counts, shares, verdicts.len())
}

// `refused R`: at most 8 + 2 bytes.
fn refused(out: &mut [u8], at: usize, r: Refusal) -> usize
    requires { at + 10 ≤ length out.old }
    ensures placed { Placed out.old at (refused_word ++ decimal (refusal_no r)) out.new result }
    ensures upper_bound { result ≤ at + 10 }
{
    let to = bytes(out, at, b"refused ");
    decimal(out, to, u64::from(u32::from(r)))
}

// `refused R line L`: at most 10 + 6 + 20 + 1 bytes.
#[tactic(auto, using(buffer::proofs::DecimalLaws::word_digits))]
pub fn line_refusal(out: &mut [u8], at: usize, r: Refusal, line: u64) -> usize
    requires { at + 40 ≤ length out.old }
    ensures placed { Placed out.old at (line_refusal r line) out.new result }
    ensures upper_bound { result ≤ at + 40 }
{
    let start = refused(out, at, r);
    let word = bytes(out, start, b" line ");
    let index = decimal(out, word, line);
    byte(out, index, b'\n')
}

// `refused R sheet`: at most 10 + 6 + 1 bytes.
pub fn sheet_refusal(out: &mut [u8], at: usize, r: Refusal) -> usize
    requires { at + 40 ≤ length out.old }
    ensures placed { Placed out.old at (sheet_refusal r) out.new result }
    ensures upper_bound { result ≤ at + 40 }
{
    let start = refused(out, at, r);
    let word = bytes(out, start, b" sheet");
    byte(out, word, b'\n')
}

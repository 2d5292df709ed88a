// Expressions evaluated in a row of words at once, 64 lanes each: two words for up to 128 valuations, else four. What the expressions read is one
// word, bit byte - 0x40 for the read byte. A second word has the same bit set for the reads that are of the lane's own valuation instead: those of
// the round itself, one earlier or one later.
#![tactic(auto)]

ghost use Rattle.std.specs.Prelude.{◌≡◌, IfSome, ℕ, ◌+◌, ◌*◌, ◌<◌, ◌≤◌, length};
ghost use Rattle.std.proofs.Math.Option.{Option};
ghost use Rattle.lanes.specs.Around.{Beside, Before, Seen, Ahead, neighbour};
ghost use Rattle.lanes.specs.Coded.{Coded};

use expression::agreeing;
use lola::reads::{expression_reads, streams_at};
use sheet::{Offset, OutputNo, Sheet};
use words::Size;

mod expression; // expression.rt: expressions and equations on rows of W words
mod row; // row.rt: one row of W words

// The reads that are of the lane's own valuation: those of the round itself, one round earlier, or one later.
const OWN_NOW: u64 = 0xffff;

const OWN_EARLIER: u64 = 0xffff_0000;

const OWN_LATER: u64 = 0xffff_0000_0000;

// What the lanes read: the bits of `env`, and the lane's own valuation where `own` has a bit set. `round` is the round itself, where its reads are
// not the lane's own.
#[derive(Clone, Copy)]
struct Reads {
    env: u64,
    own: u64,
    round: usize,
}

// ---- The reads of a round

// The streams of a neighbouring round, twice, or the defaults where there is no such round.
fn beside(round: Option<usize>) -> u16
    requires { IfSome round (λ v. v < 256) }
    ensures { Beside result (neighbour round) }
{
    match round {
        Some(v) => {
            let streams = v as u16;
            streams + 256 * streams
        }
        None => 0xff00,
    }
}

// What is read one round earlier.
pub fn before(earlier: Option<usize>) -> u32
    requires { IfSome earlier (λ a. a < 256) }
    ensures { Before result (neighbour earlier) }
{
    65536 * u32::from(beside(earlier))
}

// With that, what is read in the round b after it.
pub fn seen(before: u32, b: usize) -> u64
    requires { b < 256 }
    ensures { (p : Option ℕ) → Before before p → Seen result p b }
{
    u64::from(before) + b as u64
}

// What is read in the round b before another, or before nothing.
pub fn ahead(b: usize, later: Option<usize>) -> u64
    requires { (b < 256) × IfSome later (λ c. c < 256) }
    ensures { Ahead result b (neighbour later) }
{
    b as u64 + 4294967296 * u64::from(beside(later))
}

// ---- The equations

// The equations of a sheet: output k, stream size.inputs + k, has the value of its expression, the first len[k] of the 64 bytes from 64 k on.
#[derive(Clone, Copy)]
pub struct Equations<'a> {
    pub size: Size,
    pub code: &'a [u8; 448],
    pub len: &'a [usize; 7],
    pub ghost coded: { Coded size.inputs size.outputs code.now len.now },
}

impl<'a> Equations<'a> {
    ghost use Rattle.std.specs.Prelude.{List, get_or};
    ghost use Rattle.std.specs.Int.Bits.{bit_and};
    ghost use Rattle.std.proofs.Math.Option.{none, some};
    ghost use Rattle.words.specs.Bits.{bit};
    ghost use Rattle.sheet.specs.Parts.{code_at};
    ghost use Rattle.lola.specs.Equations.{holds};
    ghost use Rattle.lanes.specs.Around.{stack_words};
    ghost use Rattle.lanes.specs.Coded.{Agree};
    ghost use Rattle.lanes.specs.Sheets.{sheet_by};

    // The equations of a sheet that was read.
    pub fn of(sheet: &'a Sheet) -> Equations<'a>
        ensures size { (result.size.inputs ≡ sheet.now.inputs) × (result.size.outputs ≡ sheet.now.outputs) }
        ensures code { (result.code.now ≡ sheet.now.code) × (result.len.now ≡ sheet.now.len) }
    {
        Equations {
            size: Size::new(usize::from(sheet.inputs), usize::from(sheet.outputs)),
            code: &sheet.code,
            len: &sheet.len,
        }
    }

    // Output k's expression.
    fn expression(&self, k: usize) -> &'a [u8]
        requires { k < self.now.size.outputs }
        ensures bytes { result.now ≡ code_at self.now.code.now self.now.len.now k }
        ensures short { length result.now ≤ 64 }
    {
        let code = self.code;
        let from = 64 * k;
        &code[from..from + self.len[k]]
    }

    // The number of output k's stream.
    fn output_stream(&self, k: usize) -> usize
        requires { k < self.now.size.outputs }
        ensures { result ≡ self.now.size.inputs + k }
    {
        let stream = sheet::stream_of(self.size.inputs as u8, OutputNo(k as u8));
        usize::from(stream.0)
    }

    // The lanes in which the outputs have the values of their expressions; st is room to work in.
    fn row(&self, st: &mut [u64], reads: &Reads) -> [u64; 4]
        requires { stack_words self.now.size.words ≤ length st.old }
        ensures { Agree self.now.size.words reads.now.env reads.now.own self.now.size.inputs self.now.size.outputs self.now.code.now self.now.len.now reads.now.round result self.now.size.outputs }
    {
        if self.size.words <= 2 {
            let row: [u64; 2] = agreeing(self, st, reads);
            return [row[0], row[1], 0, 0];
        }
        agreeing(self, st, reads)
    }

    // The next three differ in which round is the lane's own. They are no one function: each says in which place of the equations its lanes stand.

    // The lanes i of the words j of a row in which the equations hold at b before 64 * j + i.
    pub fn successors(&self, st: &mut [u64], env: u64, b: usize) -> [u64; 4]
        requires { stack_words self.now.size.words ≤ length st.old }
        ensures { (p : Option ℕ) → Seen env p b → (ks : List ℕ) (j i : ℕ) → j < self.now.size.words → i < 64 → bit i (get_or result j 0) ≡ holds (sheet_by self.now ks) p b (some (64 * j + i)) }
    {
        let reads = Reads {
            env,
            own: OWN_LATER,
            round: b,
        };
        self.row(st, &reads)
    }

    // The lanes i of the words j of a row in which the equations hold at 64 * j + i with nothing after it, after the round whose reads are `before`.
    pub fn enders(&self, st: &mut [u64], before: u32) -> [u64; 4]
        requires { stack_words self.now.size.words ≤ length st.old }
        ensures { (p : Option ℕ) → Before before p → (ks : List ℕ) (j i : ℕ) → j < self.now.size.words → i < 64 → bit i (get_or result j 0) ≡ holds (sheet_by self.now ks) p (64 * j + i) none }
    {
        let reads = Reads {
            env: u64::from(before) + 0xff00_0000_0000,
            own: OWN_NOW,
            round: 0,
        };
        self.row(st, &reads)
    }

    // The lanes i of the words j of a row in which the equations hold at b after 64 * j + i.
    pub fn predecessors(&self, st: &mut [u64], env: u64, b: usize) -> [u64; 4]
        requires { stack_words self.now.size.words ≤ length st.old }
        ensures { (c : Option ℕ) → Ahead env b c → (ks : List ℕ) (j i : ℕ) → j < self.now.size.words → i < 64 → bit i (get_or result j 0) ≡ holds (sheet_by self.now ks) (some (64 * j + i)) b c }
    {
        let reads = Reads {
            env,
            own: OWN_EARLIER,
            round: b,
        };
        self.row(st, &reads)
    }

    // The streams that some expression reads one round earlier: the equations see no other of the round before.
    pub fn earlier_mask(&self) -> usize
        ensures { (ks : List ℕ) (a b : ℕ) (c : Option ℕ) → holds (sheet_by self.now ks) (some a) b c ≡ holds (sheet_by self.now ks) (some (bit_and a result)) b c }
    {
        let mut reads = 0;
        for k in 0..self.size.outputs {
            reads |= expression_reads(self.expression(k));
        }
        streams_at(reads, Offset::Earlier) as usize
    }
}

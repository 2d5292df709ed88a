// Rows of valuations: those that are allowed, and those that may stand before the pairs of a row.
#![tactic(auto)]

ghost use Rattle.std.specs.Prelude.{◌≡◌, true, ◌&&◌, IfSome, List, ℕ, ◌+◌, ◌*◌, ◌<◌, ◌≤◌};
ghost use Rattle.std.proofs.Math.Option.{some};
ghost use Rattle.words.specs.Bits.{bit};
ghost use Rattle.sheet.specs.RuleSheet.{required_of};
ghost use Rattle.sheet.specs.Parts.{Below};
ghost use Rattle.completions.specs.Live.{allowed};
ghost use Rattle.pairs.specs.Storage.{stored};
ghost use Rattle.pairs.specs.Changes.{base_of, row_bit, RowOf};
ghost use Rattle.lola.specs.Equations.{holds};
ghost use Rattle.lanes.specs.Around.{neighbour};
ghost use Rattle.lanes.specs.Sheets.{sheet_by};
ghost use Rattle.predecessors.specs.Rows.{meets, United};

use lanes::Equations;
use pairs::{PairSet, Row, Storage};
use sheet::OutputNo;

// The lanes i of word j whose valuation 64 j + i is allowed: one of the sheet's, with the assumption bit 1.
fn allowed_word(equations: &Equations, assumed: Option<OutputNo>, j: usize) -> u64
    requires below { Below assumed equations.now.size.outputs }
    requires word { j < 4 }
    ensures { (i : ℕ) → i < 64 → bit i result ≡ allowed (sheet_by equations.now (required_of assumed)) (64 * j + i) }
{
    let low = words::lanes_below(equations.size.valuations, j);
    match assumed {
        None => low,
        Some(k) => {
            let stream = sheet::stream_of(equations.size.inputs as u8, k);
            low & words::stream_word(usize::from(stream.0), j)
        }
    }
}

// The allowed valuations.
pub fn allowed_row(equations: &Equations, assumed: Option<OutputNo>) -> Row
    requires { Below assumed equations.now.size.outputs }
    ensures { RowOf equations.now.size.words result (allowed (sheet_by equations.now (required_of assumed))) }
{
    pairs::row_by(
        equations.size.words,
        |j| allowed_word(equations, assumed, j),
    )
}

// Whether the row has every valuation of ok.
fn covers(row: &Row, ok: &Row, w: usize) -> bool
    requires { w ≤ 4 }
    ensures { result ≡ true → (a : ℕ) → a < 64 * w → row_bit ok.now 0 a ≡ true → row_bit row.now 0 a ≡ true }
{
    for j in 0..w {
        if ok[j] & row[j] != ok[j] {
            return false;
        }
    }
    true
}

// The row gains the valuations that are both in ok and in x.
fn gain(row: &mut Row, ok: &Row, x: &Row, w: usize)
    requires { w ≤ 4 }
    ensures { United w row.old row.new (λ a. row_bit ok.now 0 a && row_bit x.now 0 a) }
{
    for j in 0..w {
        row[j] |= ok[j] & x[j];
    }
}

// The row gains the a of ok that may stand before b and what is next; st is room to work in.
fn unite(
    row: &mut Row,
    st: &mut [u64; 256],
    ok: &Row,
    equations: &Equations,
    b: usize,
    next: Option<usize>,
)
    requires { (b < 256) × IfSome next (λ c. c < 256) }
    ensures { (ks : List ℕ) → United equations.now.size.words row.old row.new (λ a. row_bit ok.now 0 a && holds (sheet_by equations.now ks) (some a) b (neighbour next)) }
{
    let w = equations.size.words;
    if covers(row, ok, w) {
        return;
    }
    let x = equations.predecessors(st, lanes::ahead(b, next), b);
    gain(row, ok, &x, w);
}

// The row gains the a of ok that the layer lets stand before b.
pub fn unite_row(
    row: &mut Row,
    st: &mut [u64; 256],
    ok: &Row,
    s: &Storage,
    equations: &Equations,
    layer: PairSet,
    b: usize,
)
    requires { b < 256 }
    ensures { (ks : List ℕ) → United equations.now.size.words row.old row.new (λ a. row_bit ok.now 0 a && meets (sheet_by equations.now ks) (64 * equations.now.size.words) (stored s.now (base_of layer)) a b) }
{
    let w = equations.size.words;
    let mut from = 0;
    while let Some(c) = pairs::next_member(s, layer, b, w, from) {
        unite(row, st, ok, equations, b, Some(c));
        from = c + 1;
    }
    if pairs::has_end(s, layer, b) {
        unite(row, st, ok, equations, b, None);
    }
}

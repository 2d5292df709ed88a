// Preparation: finds the live pairs of a sheet, layer by layer backward from the end.
#![tactic(auto)]

ghost use Rattle.std.specs.Prelude.{◌≡◌, ◌≢◌, not, ◌&&◌, List, eqb, ℕ, ◌*◌, ◌<◌, ◌≤◌, length};
ghost use Rattle.std.proofs.Math.Option.{none, some};
ghost use Rattle.sheet.specs.RuleSheet.{required_of};
ghost use Rattle.sheet.specs.Parts.{Below};
ghost use Rattle.completions.specs.Live.{allowed, ExactReach};
ghost use Rattle.pairs.specs.Storage.{live, reached_at, scratch_at, storage_words};
ghost use Rattle.pairs.specs.Changes.{base_of, eq_next, RowOf};
ghost use Rattle.lanes.specs.Sheets.{sheet_by};
ghost use Rattle.preparation.specs.Search.{newcomers, newcomers_in, enders, Joins, Empty, Occupied, Started, Swept};
ghost use Rattle.preparation.specs.Searched.{Searched};

use lanes::Equations;
use pairs::{PairSet, Row, STORAGE_WORDS, Storage};
use sheet::OutputNo;

// (a, b) joins the live set and the next layer, unless it is live. `rows` are the next layer's rows.
fn join(s: &mut Storage, rows: &mut Row, next: PairSet, a: usize, b: usize)
    requires { (a < 256) × (b < 256) × (reached_at ≤ base_of next) }
    ensures joins { Joins (base_of next) s.old s.new (λ x y. eqb x a && (eq_next y (some b) && not (live s.old a (some b)))) }
    ensures by_index { (w : ℕ) → w ≤ 4 → a < 64 * w → Occupied w rows.old s.old (base_of next) → Occupied w rows.new s.new (base_of next) }
{
    if pairs::has(s, PairSet::Live, a, b) {
        return;
    }
    pairs::insert(s, PairSet::Live, a, b);
    pairs::insert(s, next, a, b);
    pairs::note(rows, a);
}

// Each a = 64 * j + i with lane i of the word joins with b. Only the lanes that are set are looked at, as most words have few.
fn join_word(s: &mut Storage, rows: &mut Row, word: u64, j: usize, next: PairSet, b: usize)
    requires { (j < 4) × (b < 256) × (reached_at ≤ base_of next) }
    ensures joins { Joins (base_of next) s.old s.new (newcomers_in j word b (live s.old)) }
    ensures by_index { (w : ℕ) → w ≤ 4 → j < w → Occupied w rows.old s.old (base_of next) → Occupied w rows.new s.new (base_of next) }
{
    let mut rest = word;
    while rest != 0 {
        let i = rest.trailing_zeros() as usize;
        join(s, rows, next, 64 * j + i, b);
        rest &= !(1 << i);
    }
}

// Each a of the row joins with b.
fn join_row(s: &mut Storage, rows: &mut Row, row: &Row, w: usize, next: PairSet, b: usize)
    requires { (w ≤ 4) × (b < 256) × (reached_at ≤ base_of next) }
    ensures joins { Joins (base_of next) s.old s.new (newcomers (64 * w) row.now b (live s.old)) }
    ensures occupied { Occupied w rows.old s.old (base_of next) → Occupied w rows.new s.new (base_of next) }
{
    for j in 0..w {
        join_word(s, rows, row[j], j, next, b);
    }
}

// (a, end) joins the live set and the first layer.
fn join_end(s: &mut Storage, a: usize)
    requires { a < 256 }
    ensures { Joins reached_at s.old s.new (λ x y. eqb x a && eq_next y none) }
{
    pairs::insert_end(s, PairSet::Live, a);
    pairs::insert_end(s, PairSet::Reached, a);
}

// Each a of the row joins with the end.
fn join_ends(s: &mut Storage, row: &Row, w: usize)
    requires { w ≤ 4 }
    ensures { Joins reached_at s.old s.new (enders (64 * w) row.now) }
{
    let mut from = 0;
    while let Some(a) = pairs::next_bit(row, w, from) {
        join_end(s, a);
        from = a + 1;
    }
}

// The places of the layer whose pairs are taken up and of the next layer: two sets behind the live set.
#[derive(Clone, Copy)]
struct Stage {
    layer: PairSet,
    next: PairSet,
    ghost apart: { (reached_at ≤ base_of layer) × (reached_at ≤ base_of next) × (base_of layer ≢ base_of next) },
}

impl Stage {
    // The places where the search begins.
    fn first() -> Stage
        ensures { (base_of result.layer ≡ reached_at) × (base_of result.next ≡ scratch_at) }
    {
        Stage {
            layer: PairSet::Reached,
            next: PairSet::Scratch,
        }
    }

    // The next layer is taken up, in the places exchanged.
    fn turned(self) -> Stage
        ensures { (result.layer ≡ self.next) × (result.next ≡ self.layer) }
    {
        Stage {
            layer: self.next,
            next: self.layer,
        }
    }
}

// All new pairs before the pairs of the layer join, and the layer's rows are taken out. Returns the next layer's rows.
fn sweep(
    s: &mut Storage,
    st: &mut [u64; 256],
    occupied: &Row,
    ok: &Row,
    equations: &Equations,
    stage: Stage,
) -> Row
    requires { Occupied equations.now.size.words occupied.now s.old (base_of stage.layer) }
    ensures by_index { (ks : List ℕ) → RowOf equations.now.size.words ok.now (allowed (sheet_by equations.now ks)) → Swept (sheet_by equations.now ks) (64 * equations.now.size.words) (64 * equations.now.size.words) (base_of stage.layer) (base_of stage.next) s.old s.new }
    ensures occupied { Empty s.old (base_of stage.next) → Occupied equations.now.size.words result s.new (base_of stage.next) }
{
    let w = equations.size.words;
    let mut rows = [0; 4];
    let mut from = 0;
    while let Some(b) = pairs::next_bit(occupied, w, from) {
        let mut row = [0; 4];
        predecessors::unite_row(&mut row, st, ok, s, equations, stage.layer, b);
        join_row(s, &mut rows, &row, w, stage.next, b);
        pairs::take_row(s, stage.layer, b);
        from = b + 1;
    }
    rows
}

// The ends of the row's valuations are live and the first layer; there is no other pair.
fn start(s: &mut Storage, row: &Row, w: usize)
    requires { w ≤ 4 }
    ensures { Started w row.now s.old s.new }
{
    pairs::clear_all(s);
    join_ends(s, row, w);
}

// The number of live pairs, and the greatest of the fewest rounds from a live pair to the end.
#[derive(Clone, Copy)]
pub struct Found {
    pub live: usize,
    pub reach: usize,
}

// Leaves the live pairs of a sheet in the live set, and the other two sets empty.
fn search(s: &mut Storage, equations: &Equations, assumed: Option<OutputNo>) -> Found
    requires { Below assumed equations.now.size.outputs }
    ensures searched { Searched (sheet_by equations.now (required_of assumed)) s.old s.new result.live }
    ensures exact_reach { ExactReach (sheet_by equations.now (required_of assumed)) result.reach × (result.reach < result.live) }
{
    let w = equations.size.words;
    let mut st = [0; 256];
    let ok = predecessors::allowed_row(equations, assumed);
    start(s, &ok, w);
    let mut occupied = ok;
    let mut stage = Stage::first();
    let mut layers = 0;
    // Until a layer has no row with a pair.
    while pairs::next_bit(&occupied, w, 0).is_some() {
        occupied = sweep(s, &mut st, &occupied, &ok, equations, stage);
        stage = stage.turned();
        layers += 1;
    }
    let live = pairs::count(s);
    let reach = layers - 1;
    Found { live, reach }
}

// The same in the words in front of what is lent. Those behind them stay as they are.
pub fn prepare(storage: &mut [u64], equations: &Equations, assumed: Option<OutputNo>) -> Found
    requires below { Below assumed equations.now.size.outputs }
    requires room { storage_words ≤ length storage.old }
    ensures searched { Searched (sheet_by equations.now (required_of assumed)) storage.old storage.new result.live }
    ensures exact_reach { ExactReach (sheet_by equations.now (required_of assumed)) result.reach × (result.reach < result.live) }
{
    let words = storage.first_chunk_mut::<STORAGE_WORDS>().unwrap();
    search(words, equations, assumed)
}

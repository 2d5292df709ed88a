// What the reached set gains: by one valuation with its successors, and by the ends of a row.
ghost use Rattle.std.specs.Prelude.{◌≡◌, false, List, ℕ, ◌*◌, ◌<◌, ◌≤◌, eqb, ltb, length};
ghost use Rattle.std.proofs.Math.Option.{Option, none};
ghost use Rattle.pairs.specs.Storage.{live, reached, scratch, reached_at};
ghost use Rattle.pairs.specs.Changes.{Adds, eq_next};
ghost use Rattle.lanes.specs.Around.{stack_words, Before, Seen};
ghost use Rattle.lanes.specs.Sheets.{sheet_by};
ghost use Rattle.rounds.specs.Rows.{cut, gains, NoneNew, NoEndNew, in_row};

use lanes::Equations;
use pairs::{PairSet, Storage};

// Whether row b of the live set, w words of it, may have a valuation that the reached set lacks.
fn is_new(s: &Storage, w: usize, b: usize) -> bool
    requires { (w ≤ 4) × (b < 256) }
    ensures { result ≡ false → NoneNew (live s.now) (reached s.now) (64 * w) b }
{
    for j in 0..w {
        let live = pairs::row_word(s, PairSet::Live, b, j);
        if live & !pairs::row_word(s, PairSet::Reached, b, j) != 0 {
            return true;
        }
    }
    false
}

// Row b of the reached set gains the live valuations before which the equations hold at b; st is room to work in.
pub fn gain_row(s: &mut Storage, st: &mut [u64], equations: &Equations, env: u64, b: usize)
    requires { (stack_words equations.now.size.words ≤ length st.old) × (b < 256) }
    ensures { (p : Option ℕ) → Seen env p b → (ks : List ℕ) → Adds reached_at s.old s.new (gains (sheet_by equations.now ks) (λ x. eqb x b) (cut (λ c. ltb c equations.now.size.valuations)) (live s.old) p) }
{
    let w = equations.size.words;
    if !is_new(s, w, b) {
        return;
    }
    let low = words::lanes_below(equations.size.valuations, 0);
    let x = equations.successors(st, env, b);
    for j in 0..w {
        let live = pairs::row_word(s, PairSet::Live, b, j);
        pairs::insert_word(s, PairSet::Reached, b, j, live & low & x[j]);
    }
}

// Whether row g of the scratch set, w words of it, may have a valuation whose end is live and that the reached set lacks.
fn is_end_new(s: &Storage, w: usize, g: usize) -> bool
    requires { (w ≤ 4) × (g < 256) }
    ensures { result ≡ false → NoEndNew (live s.now) (reached s.now) (scratch s.now) (64 * w) g }
{
    for j in 0..w {
        let heard = pairs::row_word(s, PairSet::Scratch, g, j);
        let live = pairs::ends_word(s, PairSet::Live, j);
        if heard & live & !pairs::ends_word(s, PairSet::Reached, j) != 0 {
            return true;
        }
    }
    false
}

// The reached set gains (b, end) for the b of row g of the scratch set for which that is live and the equations hold with nothing after b.
pub fn gain_ends(s: &mut Storage, st: &mut [u64], equations: &Equations, before: u32, g: usize)
    requires { (stack_words equations.now.size.words ≤ length st.old) × (g < 256) }
    ensures { (p : Option ℕ) → Before before p → (ks : List ℕ) → Adds reached_at s.old s.new (gains (sheet_by equations.now ks) (in_row (scratch s.old) equations.now.size.valuations g) (λ y. eq_next y none) (live s.old) p) }
{
    let w = equations.size.words;
    if !is_end_new(s, w, g) {
        return;
    }
    let low = words::lanes_below(equations.size.valuations, 0);
    let x = equations.enders(st, before);
    for j in 0..w {
        let live = pairs::ends_word(s, PairSet::Live, j);
        let heard = pairs::row_word(s, PairSet::Scratch, g, j) & low;
        pairs::insert_ends(s, PairSet::Reached, j, live & heard & x[j]);
    }
}

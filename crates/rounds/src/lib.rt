// One round on the storage: its live set, its reached set and its scratch set.
#![tactic(auto)]

ghost use Rattle.std.specs.Prelude.{◌≡◌, List, ℕ, ◌+◌, ◌*◌, ◌^◌, ◌<◌, ◌≤◌, length};
ghost use Rattle.std.proofs.Math.Option.{Option, none, some};
ghost use Rattle.words.specs.Bits.{bit};
ghost use Rattle.words.specs.Below.{any_below};
ghost use Rattle.completions.specs.Steps.{start_set, step_set, part_below};
ghost use Rattle.pairs.specs.Storage.{stored, live, reached, scratch, reached_at, scratch_at};
ghost use Rattle.pairs.specs.Changes.{base_of, Adds, FirstFrom};
ghost use Rattle.lanes.specs.Around.{stack_words, Before};
ghost use Rattle.lanes.specs.Sheets.{sheet_by};
ghost use Rattle.rounds.specs.Rows.{among, gains, in_row, heard_first, brought, Sparse};
ghost use Rattle.rounds.specs.Round.{Rounded};

use gain::{gain_ends, gain_row};
use group::{clear_groups, group_rows, next_group};
use lanes::Equations;
use pairs::{PairSet, Row, Storage};
use words::Size;

mod gain; // gain.rt: what one valuation, and the ends of a row, bring to the reached set
mod group; // group.rt: rows of the reached set joined by the streams that are read one round earlier

// The first W words of row a of the set, joined.
fn joined<const W: usize>(s: &Storage, set: PairSet, a: usize) -> u64
    requires { (W ≤ 4) × (a < 256) }
    ensures { (i : ℕ) → i < 64 → bit i result ≡ any_below W (λ j. stored s.now (base_of set) a (some (64 * j + i))) }
{
    let mut lanes = 0;
    for j in 0..W {
        lanes |= pairs::row_word(s, set, a, j);
    }
    lanes
}

// The valuations of row a of the set, its first w words joined: in each lane whether some word has it. Rows are asked for one after the other with
// the same w, so the compiler takes the choice out of the caller's loop, which it can't with one loop up to w.
pub fn row_lanes(s: &Storage, set: PairSet, w: usize, a: usize) -> u64
    requires { (w ≤ 4) × (a < 256) }
    ensures { (i : ℕ) → i < 64 → bit i result ≡ any_below w (λ j. stored s.now (base_of set) a (some (64 * j + i))) }
{
    match w {
        0 => 0,
        1 => joined::<1>(s, set, a),
        2 => joined::<2>(s, set, a),
        3 => joined::<3>(s, set, a),
        _ => joined::<4>(s, set, a),
    }
}

// ---- The pairs that one round brings

// The first valuation from `from` on in row g of the scratch set, if there is one.
fn next_heard(s: &Storage, size: &Size, g: usize, from: usize) -> Option<usize>
    requires { g < 256 }
    ensures { FirstFrom (λ b. scratch s.now g (some b)) size.now.valuations from result }
{
    let next = pairs::next_member(s, PairSet::Scratch, g, size.words, from);
    next.filter(|b| *b < size.valuations)
}

// The pairs that the valuations of row g of the scratch set bring, after the round whose reads are `before`; st is room to work in.
fn bring_row(s: &mut Storage, st: &mut [u64], equations: &Equations, before: u32, g: usize)
    requires { (stack_words equations.now.size.words ≤ length st.old) × (g < 256) }
    ensures { (p : Option ℕ) → Before before p → (ks : List ℕ) → Adds reached_at s.old s.new (gains (sheet_by equations.now ks) (in_row (scratch s.old) equations.now.size.valuations g) (part_below equations.now.size.valuations) (live s.old) p) }
{
    let mut from = 0;
    while let Some(b) = next_heard(s, &equations.size, g, from) {
        gain_row(s, st, equations, lanes::seen(before, b), b);
        from = b + 1;
    }
    gain_ends(s, st, equations, before, g);
}

// ---- The first round

// Puts the valuations that were heard into row 0 of the scratch set.
fn hear(s: &mut Storage, size: &Size, letters: u64)
    ensures { Adds scratch_at s.old s.new (heard_first size.now.valuations (among letters) (64 * size.now.words)) }
{
    for j in 0..size.words {
        let heard = words::lanes_below(size.valuations, j) & letters;
        pairs::insert_word(s, PairSet::Scratch, 0, j, heard);
    }
}

// The pairs that row 0 of the scratch set brings, with nothing before it.
fn bring_first(s: &mut Storage, equations: &Equations)
    ensures { (ks : List ℕ) → Adds reached_at s.old s.new (gains (sheet_by equations.now ks) (in_row (scratch s.old) equations.now.size.valuations 0) (part_below equations.now.size.valuations) (live s.old) none) }
{
    let mut st = [0; 256];
    bring_row(s, &mut st, equations, lanes::before(None), 0);
}

// The first round, where the valuations heard are those of the lanes of `letters`.
pub fn first_round(s: &mut Storage, equations: &Equations, letters: u64)
    ensures { (ks : List ℕ) → Rounded equations.now.size.valuations s.old s.new (start_set (sheet_by equations.now ks) (live s.old) (among letters)) }
{
    let v = equations.size.valuations;
    pairs::clear_rows(s, PairSet::Scratch, v);
    hear(s, &equations.size, letters);
    pairs::clear_rows(s, PairSet::Reached, v);
    bring_first(s, equations);
    pairs::clear_rows(s, PairSet::Scratch, v);
}

// ---- A later round

// The pairs that the scratch set brings; only rows of the groups have any. ROOM is the room to work in.
fn bring_rows<const ROOM: usize>(s: &mut Storage, groups: &Row, equations: &Equations)
    requires room { (stack_words equations.now.size.words ≤ ROOM) × (ROOM ≤ 256) }
    requires sparse { Sparse equations.now.size.valuations groups.now (scratch s.old) }
    ensures { (ks : List ℕ) → Adds reached_at s.old s.new (brought (sheet_by equations.now ks) (scratch s.old) equations.now.size.valuations (live s.old) equations.now.size.valuations) }
{
    let mut st = [0; ROOM];
    let mut from = 0;
    while let Some(g) = next_group(groups, &equations.size, from) {
        bring_row(s, &mut st, equations, lanes::before(Some(g)), g);
        from = g + 1;
    }
}

// The same, with as much room as the valuations want.
fn bring_pairs(s: &mut Storage, groups: &Row, equations: &Equations)
    requires { Sparse equations.now.size.valuations groups.now (scratch s.old) }
    ensures { (ks : List ℕ) → Adds reached_at s.old s.new (brought (sheet_by equations.now ks) (scratch s.old) equations.now.size.valuations (live s.old) equations.now.size.valuations) }
{
    if equations.size.valuations <= 128 {
        bring_rows::<128>(s, groups, equations);
    } else {
        bring_rows::<256>(s, groups, equations);
    }
}

// A later round. Pairs (a, b) and (a', b) whose first parts agree in every stream that is read one round earlier have the same
// successors, so the rows of the reached set, what was heard of them, are first joined by these groups.
pub fn later_round(s: &mut Storage, equations: &Equations, letters: u64)
    ensures { (ks : List ℕ) → Rounded equations.now.size.valuations s.old s.new (step_set (sheet_by equations.now ks) equations.now.size.valuations (live s.old) (reached s.old) (among letters)) }
{
    let size = equations.size;
    let mask = equations.earlier_mask();
    pairs::clear_rows(s, PairSet::Scratch, size.valuations);
    let mut groups = [0; 4];
    group_rows(s, &mut groups, &size, letters, mask);
    pairs::clear_rows(s, PairSet::Reached, size.valuations);
    bring_pairs(s, &groups, equations);
    clear_groups(s, &groups, &size);
}

// Rows of the reached set, joined in the scratch set by groups: those that agree in the streams that are read one round earlier.
ghost use Rattle.std.specs.Prelude.{◌≡◌, true, ◌&&◌, ℕ, ◌+◌, ◌*◌, ◌<◌, ◌≤◌, eqb};
ghost use Rattle.pairs.specs.Storage.{reached, scratch, scratch_at};
ghost use Rattle.pairs.specs.Changes.{Adds, RowsCleared, FirstFrom, row_bit};
ghost use Rattle.rounds.specs.Rows.{among, heard_in, grouped, Sparse, NoEnds, Quiet};

use super::row_lanes;
use pairs::{PairSet, Row, Storage};
use words::Size;

// Row a of the reached set, what was heard of its w words, joins row g of the scratch set.
fn join_row(s: &mut Storage, w: usize, letters: u64, a: usize, g: usize)
    requires { (w ≤ 4) × (a < 256) × (g < 256) }
    ensures { Adds scratch_at s.old s.new (λ x y. eqb x g && heard_in (reached s.old) (among letters) (64 * w) a y) }
{
    for j in 0..w {
        let x = pairs::row_word(s, PairSet::Reached, a, j);
        pairs::insert_word(s, PairSet::Scratch, g, j, x & letters);
    }
}

// The same; where anything was heard, g is noted among the groups.
fn group_row(s: &mut Storage, groups: &mut Row, w: usize, letters: u64, a: usize, g: usize)
    requires { (w ≤ 4) × (a < 256) × (g < 256) }
    ensures joined { Adds scratch_at s.old s.new (λ x y. eqb x g && heard_in (reached s.old) (among letters) (64 * w) a y) }
    ensures sparse { (v : ℕ) → v ≤ 256 → Sparse v groups.old (scratch s.old) → Sparse v groups.new (scratch s.new) }
{
    if row_lanes(s, PairSet::Reached, w, a) & letters == 0 {
        return;
    }
    join_row(s, w, letters, a, g);
    pairs::note(groups, g);
}

// Whether the four rows from a on of the reached set have nothing. Most rows are empty where little is unknown, and four at once are quickly
// passed over.
fn is_quiet(s: &Storage, a: usize) -> bool
    requires { a + 4 ≤ 256 }
    ensures { result ≡ true → Quiet (reached s.now) a (a + 4) }
{
    let mut any = 0;
    for word in pairs::rows(s, PairSet::Reached, a, 4) {
        any |= *word;
    }
    any == 0
}

// Each row of the reached set that a valuation has joins the row of its group: rows that agree in the streams of the mask.
pub fn group_rows(s: &mut Storage, groups: &mut Row, size: &Size, letters: u64, mask: usize)
    ensures joined { Adds scratch_at s.old s.new (grouped (reached s.old) (among letters) mask (64 * size.now.words) size.now.valuations) }
    ensures sparse { Sparse size.now.valuations groups.old (scratch s.old) → Sparse size.now.valuations groups.new (scratch s.new) }
{
    for four in 0..size.valuations.div_ceil(4) {
        let first = 4 * four;
        if is_quiet(s, first) {
            continue;
        }
        for a in first..size.valuations.min(first + 4) {
            group_row(s, groups, size.words, letters, a, a & mask);
        }
    }
}

// The first group from `from` on, if there is one.
pub fn next_group(groups: &Row, size: &Size, from: usize) -> Option<usize>
    ensures { FirstFrom (row_bit groups.now 0) size.now.valuations from result }
{
    let next = pairs::next_bit(groups, size.words, from);
    next.filter(|g| *g < size.valuations)
}

// Empties the rows of the groups, where no other row of the scratch set that a valuation has holds anything.
pub fn clear_groups(s: &mut Storage, groups: &Row, size: &Size)
    requires { Sparse size.now.valuations groups.now (scratch s.old) × NoEnds (scratch s.old) }
    ensures { RowsCleared scratch_at size.now.valuations s.old s.new }
{
    let mut from = 0;
    while let Some(g) = next_group(groups, size, from) {
        pairs::take_row(s, PairSet::Scratch, g);
        from = g + 1;
    }
}

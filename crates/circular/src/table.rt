// The circularity check on the reads between outputs: Kleene's algorithm for the largest weights of walks.
ghost use Rattle.std.specs.Prelude.{◌≡◌, ◌↔◌, IsTrue, true, false, ℕ, ◌+◌, ◌*◌, ◌<◌, ◌≤◌, get_or};
ghost use Rattle.words.specs.Bits.{bit};
ghost use Rattle.lola.specs.ByteReads.{read_in};
ghost use Rattle.circular.specs.Circular.{Circular};
ghost use Rattle.circular.specs.Table.{clip_n, plus_n, loop_n, top_n, base_n, reads_of_words, row_of, Small, SmallTable, Tails, Joined, BaseRow, Next, Based, Closed, level_both};

use super::reads::mask_at;
use lola::reads::streams_at;
use sheet::{Offset, OutputNo};
use words::has_bit;

// An entry tells the largest weight of the walks from an output to an output, where a read one round earlier weighs -1 and one round later 1:
// LEVEL plus the weight. The two special cases are numbers too, so that a row is eight numbers of 16 bits, which are worked on side by side.
const NO_WALK: u16 = 0;

const LEVEL: u16 = 1024;

const LOWER: u16 = 1023;

const HIGHER: u16 = 1025;

const UNBOUNDED: u16 = 4096;
// A sum of two entries from here on would be UNBOUNDED or more.
const BEYOND: u16 = 5120;

// That entries are small (`Small`) stays in the contracts of the few functions on a bare row, for the same reason.

// A sum of two entries, as an entry.
#[tactic(auto, unfolding(crate::specs::Table::clip_n))]
fn clip(s: u16) -> u16
    ensures { result ≡ clip_n s }
{
    if s < LEVEL {
        return NO_WALK;
    }
    let weight = s - LEVEL;
    if BEYOND <= s { UNBOUNDED } else { weight }
}

// One walk after the other. This and `top` work out all that they choose between: so the compiler chooses for the eight entries of a row at once.
#[tactic(auto, unfolding(crate::specs::Table::plus_n, crate::specs::Table::clip_n))]
fn plus(x: u16, y: u16) -> u16
    requires { (x ≤ 4096) × (y ≤ 4096) }
    ensures { result ≡ plus_n x y }
{
    let sum = clip(x + y);
    let bounded = if y == UNBOUNDED { UNBOUNDED } else { sum };
    let walk = if x == UNBOUNDED { UNBOUNDED } else { bounded };
    let on = if y == NO_WALK { NO_WALK } else { walk };
    if x == NO_WALK { NO_WALK } else { on }
}

// Any number of rounds of a closed walk of weight c, and then x.
#[tactic(auto, unfolding(crate::specs::Table::loop_n))]
fn looped(c: u16, x: u16) -> u16
    ensures { result ≡ loop_n c x }
{
    let top = LEVEL;
    if c <= top {
        x
    } else if x == NO_WALK {
        NO_WALK
    } else {
        UNBOUNDED
    }
}

// The entries of the walks from one output, by the output that they lead to.
type Row = [u16; 8];

// A row for each output that the walks come from.
type Table = [Row; 8];

// The walks from output k, after any number of rounds of a closed walk there.
fn tails(row: &Row, k: usize) -> Row
    requires { (k < 8) × Small row.now }
    ensures { Tails row.now k result }
{
    let around = row[k];
    let mut new = *row;
    for entry in &mut new {
        *entry = looped(around, *entry);
    }
    new
}

// The walks of a row, and those that go to an output by a walk `to` and then on from there.
fn joined(row: &Row, to: u16, tails: &Row) -> Row
    requires { (to ≤ 4096) × Small row.now × Small tails.now }
    ensures { Joined row.now to tails.now result }
{
    let mut new = *row;
    for (q, entry) in new.iter_mut().enumerate() {
        *entry = (*entry).max(plus(to, tails[q]));
    }
    new
}

// Walks that may also pass through output k.
fn stage(t: &mut Table, k: usize, n: usize)
    requires { (k < n) × (n ≤ 7) × SmallTable t.old }
    ensures { SmallTable t.new × Next n t.old k t.new }
{
    let on = tails(&t[k], k);
    for i in 0..n {
        let to = t[i][k];
        if to != NO_WALK {
            t[i] = joined(&t[i], to, &on);
        }
    }
}

// The largest weight of a read, of those there are.
#[tactic(auto, unfolding(crate::specs::Table::top_n))]
fn top(earlier: bool, now: bool, later: bool) -> u16
    ensures { result ≡ top_n earlier now later }
{
    let lowest = if earlier { LOWER } else { NO_WALK };
    let lower = if now { LEVEL } else { lowest };
    if later { HIGHER } else { lower }
}

// The heaviest of the reads of a mask; the lightest, with its sign turned, where it is not `up`.
#[tactic(auto, unfolding(crate::specs::Table::base_n))]
fn base(up: bool, mask: u8) -> u16
    ensures { result ≡ base_n up (λ o. bit o mask) }
{
    let mask = u64::from(mask);
    let earlier = has_bit(mask, 0);
    let now = has_bit(mask, 1);
    let later = has_bit(mask, 2);
    if up {
        top(earlier, now, later)
    } else {
        top(later, now, earlier)
    }
}

// The same for the reads of one output.
fn base_row(word: u64, m: u8, n: usize, up: bool) -> Row
    requires { (m ≤ 6) × (n ≤ 7) }
    ensures { BaseRow n (λ q. base_n up (read_in word (m + q))) result }
{
    let mut row = [NO_WALK; 8];
    for q in 0..n {
        let stream = sheet::stream_of(m, OutputNo(q as u8));
        row[q] = base(up, mask_at(word, stream));
    }
    row
}

// The same for all outputs.
fn based(words: &[u64; 7], m: u8, n: usize, up: bool) -> Table
    requires { (m ≤ 6) × (n ≤ 7) }
    ensures { SmallTable result × Based n (λ s q. base_n up (reads_of_words words.now m s q)) result }
{
    let mut t = [[NO_WALK; 8]; 8];
    for s in 0..n {
        t[s] = base_row(words[s], m, n, up);
    }
    t
}

// Walks of any length.
fn closed(words: &[u64; 7], m: u8, n: usize, up: bool) -> Table
    requires { (m ≤ 6) × (n ≤ 7) }
    ensures { Closed n (λ s q. base_n up (reads_of_words words.now m s q)) result }
{
    let mut t = based(words, m, n, up);
    for k in 0..n {
        stage(&mut t, k, n);
    }
    t
}

// Whether some output has a closed walk of weight at least 0 in both tables.
fn level_in_both<'a>(t: &'a Table, u: &'a Table, n: usize) -> bool
    requires { n ≤ 7 }
    ensures { IsTrue result ↔ ((s : ℕ) × (s < n) × IsTrue (level_both t.now u.now s)) }
{
    (0..n).any(|s| LEVEL <= t[s][s] && LEVEL <= u[s][s])
}

// Whether some output reads an output.
fn has_reads(words: &[u64; 7], m: u8, n: usize) -> bool
    requires { (m ≤ 6) × (n ≤ 7) }
    ensures { result ≡ false → (s : ℕ) → s < n → (q o : ℕ) → o ≤ 2 → reads_of_words words.now m s q o ≡ false }
{
    let first = sheet::stream_of(m, OutputNo(0));
    let mut all = 0;
    for word in words {
        all |= *word;
    }
    let streams = streams_at(all, Offset::Earlier)
        | streams_at(all, Offset::Now)
        | streams_at(all, Offset::Later);
    streams >> first.0 != 0
}

// Whether some value reaches itself: some output has a closed walk of weight at least 0 and one of weight at most 0. Word s has the reads of
// output s; output q is stream m + q.
pub fn circular(words: &[u64; 7], m: u8, n: usize) -> bool
    requires { (m ≤ 6) × (n ≤ 7) }
    ensures yes { result ≡ true → Circular n (reads_of_words words.now m) }
    ensures no { result ≡ false → Circular n (reads_of_words words.now m) → ⊥ }
{
    if !has_reads(words, m, n) {
        return false;
    }
    let rising = closed(words, m, n, true);
    if !level_in_both(&rising, &rising, n) {
        return false;
    }
    let falling = closed(words, m, n, false);
    level_in_both(&rising, &falling, n)
}

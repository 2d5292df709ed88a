// Sets of pairs in the storage's words: the live set, the reached set and the scratch set.
#![tactic(auto)]

ghost use Rattle.std.specs.Prelude.{◌≡◌, ◌&&◌, eqb, length, ℕ, ◌+◌, ◌*◌, ◌<◌, ◌≤◌, Bool, slice_index, take, ◌^◌};
ghost use Rattle.std.proofs.Math.Option.{none, some};
ghost use Rattle.words.specs.Below.{count_below};
ghost use Rattle.completions.specs.Live.{count_pairs};
ghost use Rattle.pairs.specs.Storage.{stored, live, live_at, set_words, scratch_at, storage_words, max_pairs};
ghost use Rattle.pairs.specs.Changes.{base_of, eq_next, in_word, row_bit, RowOf, GivesRow, RowWord, EndsWord, Adds, NextBit, NextMember, Zeroed, RowsCleared, RowTaken, Noted};

// The words of one set.
pub const SET_WORDS: usize = 1028;

// The words of the three sets.
pub const STORAGE_WORDS: usize = 3 * SET_WORDS;

// The words that the sets lie in.
pub type Storage = [u64; STORAGE_WORDS];

// A set of valuations, a bit for each: the valuations that follow one in a set of pairs are such a row.
pub type Row = [u64; 4];

// The sets, in the order in which they lie in the storage.
#[derive(Clone, Copy, Debug, PartialEq, Eq)]
pub enum PairSet {
    Live,
    Reached,
    Scratch,
}

impl PairSet {
    // The word that the set begins with.
    fn base(self) -> usize
        ensures is { result ≡ base_of self }
        ensures fits { result ≤ scratch_at }
    {
        match self {
            PairSet::Live => 0,
            PairSet::Reached => SET_WORDS,
            PairSet::Scratch => 2 * SET_WORDS,
        }
    }
}

// A pair has a valuation or the end mark behind it, and these lie apart. Functions come twice for that: a caller knows which it has, and a test of
// an Option would stand in the innermost loops.

// Whether (a, b) is in the set.
pub fn has(s: &Storage, set: PairSet, a: usize, b: usize) -> bool
    requires { (a < 256) × (b < 256) }
    ensures { result ≡ stored s.now (base_of set) a (some b) }
{
    words::has_bit(s[set.base() + (4 * a + b / 64)], b % 64)
}

// Whether (a, end) is in the set.
pub fn has_end(s: &Storage, set: PairSet, a: usize) -> bool
    requires { a < 256 }
    ensures { result ≡ stored s.now (base_of set) a none }
{
    words::has_bit(s[set.base() + (1024 + a / 64)], a % 64)
}

// Word j of row a of the set: its lane i is the pair (a, 64 j + i).
pub fn row_word(s: &Storage, set: PairSet, a: usize, j: usize) -> u64
    requires { (a < 256) × (j < 4) }
    ensures { RowWord (stored s.now (base_of set)) a j result }
{
    s[set.base() + (4 * a + j)]
}

// Word j of the ends of the set: its lane i is the pair (64 j + i, end).
pub fn ends_word(s: &Storage, set: PairSet, j: usize) -> u64
    requires { j < 4 }
    ensures { EndsWord (stored s.now (base_of set)) j result }
{
    s[set.base() + (1024 + j)]
}

// The words of n rows of the set, from row a on.
pub fn rows(s: &Storage, set: PairSet, a: usize, n: usize) -> &[u64]
    requires { a + n ≤ 256 }
    ensures { (length result.now ≡ 4 * n) × ((k : ℕ) → k < 4 * n → slice_index result.now k ≡ slice_index s.now (base_of set + (4 * a + k))) }
{
    let at = set.base() + 4 * a;
    &s[at..at + 4 * n]
}

// Puts (a, b) into the set.
pub fn insert(s: &mut Storage, set: PairSet, a: usize, b: usize)
    requires { (a < 256) × (b < 256) }
    ensures { Adds (base_of set) s.old s.new (λ x y. eqb x a && eq_next y (some b)) }
{
    let k = set.base() + (4 * a + b / 64);
    s[k] |= 1 << (b % 64);
}

// Puts (a, end) into the set.
pub fn insert_end(s: &mut Storage, set: PairSet, a: usize)
    requires { a < 256 }
    ensures { Adds (base_of set) s.old s.new (λ x y. eqb x a && eq_next y none) }
{
    s[set.base() + (1024 + a / 64)] |= 1 << (a % 64);
}

// Puts (a, 64 j + i) into the set, for each lane i of x that is set.
pub fn insert_word(s: &mut Storage, set: PairSet, a: usize, j: usize, x: u64)
    requires { (a < 256) × (j < 4) }
    ensures { Adds (base_of set) s.old s.new (λ p y. eqb p a && in_word j x y) }
{
    s[set.base() + (4 * a + j)] |= x;
}

// Puts (64 j + i, end) into the set, for each lane i of x that is set.
pub fn insert_ends(s: &mut Storage, set: PairSet, j: usize, x: u64)
    requires { j < 4 }
    ensures { Adds (base_of set) s.old s.new (λ a y. in_word j x (some a) && eq_next y none) }
{
    s[set.base() + (1024 + j)] |= x;
}

// The row whose first w words are given by their numbers; the others are 0.
pub fn row_by<F: Fn(usize) -> u64>(w: usize, word: F) -> Row
    requires { (w ≤ 4) × ((j : ℕ) → j < w → F.pre word j) }
    ensures { (g : ℕ → Bool) → GivesRow w (F.post word) g → RowOf w result g }
{
    let mut row = [0; 4];
    for j in 0..w {
        row[j] = word(j);
    }
    row
}

// Puts a into the row.
pub fn note(row: &mut Row, a: usize)
    requires { a < 256 }
    ensures { Noted a row.old row.new }
{
    row[a / 64] |= 1 << (a % 64);
}

// The first bit from `from` on that is set in the words, if there is one.
fn next_in(words: &[u64], from: usize) -> Option<usize>
    requires { length words.now ≤ 4 }
    ensures { NextBit words.now (length words.now) from result }
{
    let x = *words.get(from / 64)? >> (from % 64);
    if x != 0 {
        return Some(from + x.trailing_zeros() as usize);
    }
    for j in from / 64 + 1..words.len() {
        if words[j] != 0 {
            return Some(64 * j + words[j].trailing_zeros() as usize);
        }
    }
    None
}

// The first valuation from `from` on in the first w words of the row, if there is one.
pub fn next_bit(row: &Row, w: usize, from: usize) -> Option<usize>
    requires { w ≤ 4 }
    ensures { NextBit row.now w from result }
{
    next_in(&row[..w], from)
}

// The first valuation from `from` on in the first w words of row a of the set, if there is one.
pub fn next_member(s: &Storage, set: PairSet, a: usize, w: usize, from: usize) -> Option<usize>
    requires { (a < 256) × (w ≤ 4) }
    ensures { NextMember (stored s.now (base_of set)) a w from result }
{
    next_in(&rows(s, set, a, 1)[..w], from)
}

// Writes 0 into n words from `at` on.
fn clear_words(s: &mut Storage, at: usize, n: usize)
    requires { at + n ≤ storage_words }
    ensures { Zeroed at n s.old s.new }
{
    s[at..at + n].fill(0);
}

// Empties the three sets.
pub fn clear_all(s: &mut Storage)
    ensures { Zeroed live_at storage_words s.old s.new }
{
    s.fill(0);
}

// Empties the rows below v and the ends of the set.
pub fn clear_rows(s: &mut Storage, set: PairSet, v: usize)
    requires { v ≤ 256 }
    ensures { RowsCleared (base_of set) v s.old s.new }
{
    let at = set.base();
    clear_words(s, at, 4 * v);
    clear_words(s, at + 1024, 4);
}

// Takes the pairs of row a out of the set.
pub fn take_row(s: &mut Storage, set: PairSet, a: usize)
    requires { a < 256 }
    ensures { RowTaken (base_of set) a s.old s.new }
{
    let at = set.base();
    clear_words(s, at + 4 * a, 4);
    s[at + (1024 + a / 64)] &= !(1 << (a % 64));
}

// The number of bits that are 1 in the words.
fn ones(words: &[u64]) -> usize
    requires { length words.now ≤ set_words }
    ensures sum { result ≡ count_below (64 * length words.now) (row_bit words.now 0) }
    ensures most { result ≤ 64 * length words.now }
{
    let mut n = 0;
    for word in words {
        n += word.count_ones() as usize;
    }
    n
}

// The number of pairs in the live set: the counts of ones of its words, summed. What the type says of the words is told too.
pub fn count(s: &[u64]) -> usize
    requires { storage_words ≤ length s.now }
    ensures counted { result ≡ count_pairs 256 (live s.now) }
    ensures most { result ≤ max_pairs }
    ensures words { (k : ℕ) → slice_index s.now k < 2 ^ 64 }
{
    ones(&s[..SET_WORDS])
}

// The words of the sets, in front of what is lent.
pub fn in_front(storage: &[u64]) -> &Storage
    requires { storage_words ≤ length storage.now }
    ensures { result.now ≡ take storage_words storage.now }
{
    storage.first_chunk::<STORAGE_WORDS>().unwrap()
}

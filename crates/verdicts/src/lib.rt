// Verdicts read off the reached set: of a round over the first parts of its pairs, of a closing over those
// that the end mark follows.
#![tactic(auto)]

ghost use Rattle.std.specs.Prelude.{◌≡◌, Bool, true, false, ◌&&◌, ◌||◌, ℕ, ◌+◌, ◌*◌, ◌^◌, ◌<◌, ◌≤◌, eqb, ltb, length};
ghost use Rattle.std.proofs.Math.Option.{none, some};
ghost use Rattle.words.specs.Below.{any_below};
ghost use Rattle.words.specs.Bits.{bit};
ghost use Rattle.completions.specs.Steps.{any_next, verdict_of, pairs_verdict, ends_verdict};
ghost use Rattle.pairs.specs.Storage.{reached};
ghost use Rattle.pairs.specs.Changes.{row_bit, RowOf};
ghost use Rattle.outcomes.specs.Numbers.{Verdicts};
ghost use Rattle.rounds.specs.Rows.{among};
ghost use Rattle.verdicts.specs.Firsts.{Passing, Decides, shows, all_named};

use outcomes::Verdict;
use pairs::{PairSet, Row, Storage};
use sheet::OutputNo;
use words::Size;

// Whether some valuation follows a in the reached set.
fn is_followed(s: &Storage, size: Size, a: usize) -> bool
    requires { a < 256 }
    ensures { result ≡ any_below size.valuations (λ b. reached s.now a (some b)) }
{
    rounds::row_lanes(s, PairSet::Reached, size.words, a) & words::lanes_below(size.valuations, 0)
        != 0
}

// Whether some pair of the reached set has the first part a.
fn is_first(s: &Storage, size: Size, a: usize) -> bool
    requires { a < 256 }
    ensures { result ≡ any_next size.valuations (reached s.now a) }
{
    pairs::has_end(s, PairSet::Reached, a) || is_followed(s, size, a)
}

// The lanes of x that pass the test. Only those that x has are looked at, from the lowest on, as most words have few.
fn lanes_where<F: Fn(usize) -> bool>(x: u64, test: F) -> u64
    requires { (i : ℕ) → i < 64 → F.pre test i }
    ensures { (g : ℕ → Bool) → Decides (F.post test) g → (i : ℕ) → i < 64 → bit i result ≡ (bit i x && g i) }
{
    let mut word = 0;
    let mut rest = x;
    while rest != 0 {
        let i = rest.trailing_zeros() as usize;
        if test(i) {
            word |= 1 << i;
        }
        rest &= !(1 << i);
    }
    word
}

// The lanes i for which 64 * j + i was heard and is a first part of the reached set.
fn firsts_word(s: &Storage, size: Size, letters: u64, j: usize) -> u64
    requires { j < 4 }
    ensures { (i : ℕ) → i < 64 → bit i result ≡ ((ltb (64 * j + i) size.valuations && among letters (64 * j + i)) && any_next size.valuations (reached s.now (64 * j + i))) }
{
    lanes_where(
        words::lanes_below(size.valuations, j) & letters,
        |i| is_first(s, size, 64 * j + i),
    )
}

// The first parts of the reached set that were heard.
fn firsts(s: &Storage, size: Size, letters: u64) -> Row
    ensures { RowOf size.words result (λ b. (ltb b size.valuations && among letters b) && any_next size.valuations (reached s.now b)) }
{
    pairs::row_by(size.words, |j| firsts_word(s, size, letters, j))
}

// The lanes below n that pass the test. They are looked at one after the other: no turn waits for what the one before has found.
fn first_lanes_where<F: Fn(usize) -> bool>(n: usize, test: F) -> u64
    requires { (n ≤ 64) × ((i : ℕ) → i < 64 → F.pre test i) }
    ensures { (g : ℕ → Bool) → Decides (F.post test) g → (i : ℕ) → i < 64 → bit i result ≡ (ltb i n && g i) }
{
    let mut word = 0;
    for i in 0..n {
        if test(i) {
            word |= 1 << i;
        }
    }
    word
}

// The lanes i for which 64 * j + i is a first part of the reached set. All of them are looked at: nothing is known of the last round.
fn every_first_word(s: &Storage, size: Size, j: usize) -> u64
    requires { j < 4 }
    ensures { (i : ℕ) → i < 64 → bit i result ≡ (ltb (64 * j + i) size.valuations && any_next size.valuations (reached s.now (64 * j + i))) }
{
    let low = words::lanes_below(size.valuations, j);
    let ends = pairs::ends_word(s, PairSet::Reached, j) & low;
    let followed = first_lanes_where(size.valuations.min(64), |i| {
        is_followed(s, size, 64 * j + i)
    });
    ends | low & followed
}

// The first parts of the reached set.
fn every_first(s: &Storage, size: Size) -> Row
    ensures { RowOf size.words result (λ b. ltb b size.valuations && any_next size.valuations (reached s.now b)) }
{
    pairs::row_by(size.words, |j| every_first_word(s, size, j))
}

// The valuations that the end mark follows in the reached set.
fn ends(s: &Storage, size: Size) -> Row
    ensures { RowOf size.words result (λ b. ltb b size.valuations && reached s.now b none) }
{
    pairs::row_by(size.words, |j| {
        pairs::ends_word(s, PairSet::Reached, j) & words::lanes_below(size.valuations, j)
    })
}

// Whether the test gives v for some valuation of the first w words; it is a row too, with the valuations that pass it. A loop, as `any` would ask of
// each number j, even one that is no word of the row, what its words have.
fn shown(f: &Row, w: usize, test: &Row, v: bool) -> bool
    requires { w ≤ 4 }
    ensures { result ≡ shows w f.now (row_bit test.now 0) v }
{
    for j in 0..w {
        if f[j] & words::agree(test[j], v) != 0 {
            return true;
        }
    }
    false
}

// The verdict on any test of a valuation, over those of the first w words.
fn verdict(f: &Row, w: usize, test: &Row) -> Verdict
    requires { w ≤ 4 }
    ensures { (g : ℕ → Bool) → RowOf w test.now g → result ≡ verdict_of (shows w f.now g true) (shows w f.now g false) }
{
    match (shown(f, w, test, true), shown(f, w, test, false)) {
        (true, true) => Verdict::Open,
        (true, false) => Verdict::True,
        (false, true) => Verdict::False,
        (false, false) => Verdict::Broken,
    }
}

// The lanes i for which output k is true in the valuation 64 * j + i.
fn where_true(m: usize, k: OutputNo, j: usize) -> u64
    requires { (m + k.0 < 8) × (j < 4) }
    ensures { (i : ℕ) → i < 64 → bit i result ≡ bit (m + k.0) (64 * j + i) }
{
    let stream = sheet::stream_of(m as u8, k);
    words::stream_word(usize::from(stream.0), j)
}

// The test that an output is: the valuations in which it is true. All four words are filled: a loop with a constant end is none.
fn output_test(size: Size, k: OutputNo) -> Row
    requires { k.0 < size.outputs }
    ensures { RowOf size.words result (bit (size.inputs + k.0)) }
{
    pairs::row_by(4, |j| where_true(size.inputs, k, j))
}

// The lanes i for which all outputs of the set, bit k being output k, are true in the valuation 64 * j + i.
fn set_word(m: usize, n: usize, set: u8, j: usize) -> u64
    requires { (m + n ≤ 8) × (j < 4) }
    ensures { (i : ℕ) → i < 64 → bit i result ≡ all_named m n set (64 * j + i) }
{
    let mut word = words::spread(true);
    for k in 0..n {
        let in_set = words::has_bit(set as u64, k);
        if in_set {
            word &= where_true(m, OutputNo(k as u8), j);
        }
    }
    word
}

// The test that a set of outputs is: the valuations in which all of them are true.
fn set_test(size: Size, set: u8) -> Row
    ensures { RowOf size.words result (all_named size.inputs size.outputs set) }
{
    pairs::row_by(size.words, |j| set_word(size.inputs, size.outputs, set, j))
}

// The verdicts on the outputs.
fn verdicts(f: &Row, size: Size) -> [Verdict; 7]
    requires { size.outputs ≤ 7 }
    ensures { Verdicts size.outputs (λ k. verdict_of (shows size.words f.now (bit (size.inputs + k)) true) (shows size.words f.now (bit (size.inputs + k)) false)) result }
{
    let mut vs = [Verdict::False; 7];
    for k in 0..size.outputs {
        vs[k] = verdict(f, size.words, &output_test(size, OutputNo(k as u8)));
    }
    vs
}

// Each output's verdict over the reached set, where only valuations that were heard are first parts.
pub fn round_verdicts(s: &Storage, size: Size, letters: u64) -> [Verdict; 7]
    requires { size.outputs ≤ 7 }
    ensures { Passing (2 ^ (size.inputs + size.outputs)) (among letters) (reached s.now) → Verdicts size.outputs (λ k. pairs_verdict (2 ^ (size.inputs + size.outputs)) (reached s.now) (bit (size.inputs + k))) result }
{
    verdicts(&firsts(s, size, letters), size)
}

// Each output's verdict over the pairs of the reached set with the end mark.
pub fn closing_verdicts(s: &Storage, size: Size) -> [Verdict; 7]
    requires { size.outputs ≤ 7 }
    ensures { Verdicts size.outputs (λ k. ends_verdict (2 ^ (size.inputs + size.outputs)) (reached s.now) (bit (size.inputs + k))) result }
{
    verdicts(&ends(s, size), size)
}

// The verdict over the reached set on all outputs of a set being true.
pub fn set_verdict(s: &Storage, size: Size, set: u8) -> Verdict
    ensures { result ≡ pairs_verdict (2 ^ (size.inputs + size.outputs)) (reached s.now) (all_named size.inputs size.outputs set) }
{
    verdict(&every_first(s, size), size.words, &set_test(size, set))
}

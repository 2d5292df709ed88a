// Rows of W words, 64 lanes each. They are written word by word: `fill` and `copy_from_slice` keep a row in memory instead of in registers, which
// takes twice the time.
ghost use Rattle.std.specs.Prelude.{◌≡◌, true, false, not, ◌&&◌, ℕ, ◌+◌, ◌*◌, ◌%◌, ◌<◌, ◌≤◌, eqb, length, get_or};
ghost use Rattle.std.specs.List.{list_all};
ghost use Rattle.std.specs.Bool.{beq};
ghost use Rattle.words.specs.Bits.{bit};
ghost use Rattle.lanes.specs.Around.{read_at, here, Filled, Stored};

use super::Reads;

// Every word of the row becomes x.
pub fn fill_row<const W: usize>(row: &mut [u64; W], x: u64)
    ensures size { length row.new ≡ W }
    ensures words { Filled W (λ j. x) row.new }
{
    for j in 0..W {
        row[j] = x;
    }
}

// Puts the row into the stack as row k.
pub fn store_row<const W: usize>(st: &mut [u64], k: usize, row: &[u64; W])
    requires { W * k + W ≤ length st.old }
    ensures { Stored W k row.now st.old st.new }
{
    for j in 0..W {
        st[W * k + j] = row[j];
    }
}

// Every lane of the row turned over.
pub fn not_row<const W: usize>(row: &mut [u64; W])
    ensures size { length row.new ≡ W }
    ensures words { (j i : ℕ) → j < W → i < 64 → bit i (get_or row.new j 0) ≡ not (bit i (get_or row.old j 0)) }
{
    for word in row.iter_mut() {
        *word = !*word;
    }
}

// Each word of the row becomes what `op` makes of the word below and of it.
pub fn combine<const W: usize, F: Fn(u64, u64) -> u64>(row: &mut [u64; W], below: &[u64], op: F)
    requires callable { F.IsAlwaysCallable op }
    requires size { length below.now ≡ W }
    ensures size { length row.new ≡ W }
    ensures words { (j : ℕ) → j < W → F.post op (get_or below.now j 0) (get_or row.old j 0) (get_or row.new j 0) }
{
    for j in 0..W {
        row[j] = op(below[j], row[j]);
    }
}

// Stream q of the valuation in each lane of the row.
fn stream_row<const W: usize>(row: &mut [u64; W], q: usize)
    requires { (W ≤ 4) × (q < 8) }
    ensures size { length row.new ≡ W }
    ensures words { (j i : ℕ) → j < W → i < 64 → bit i (get_or row.new j 0) ≡ bit q (64 * j + i) }
{
    for j in 0..W {
        row[j] = words::stream_word(q, j);
    }
}

// The value of the read byte e in each lane of the row.
pub fn read_row<const W: usize>(row: &mut [u64; W], reads: &Reads, e: u8)
    requires { W ≤ 4 }
    ensures size { length row.new ≡ W }
    ensures words { (j i : ℕ) → j < W → i < 64 → bit i (get_or row.new j 0) ≡ read_at reads.now.env reads.now.own (64 * j + i) (e % 64) }
{
    let k = (e % 64) as usize;
    if words::has_bit(reads.own, k) {
        stream_row(row, k % 8);
        return;
    }
    let value = words::has_bit(reads.env, k);
    fill_row(row, words::spread(value));
}

// Stream q of the round itself in the lanes of the valuations from 64 * j on: of reads.round, or of the lane's valuation where the reads of the round
// itself are its own.
fn here_word(reads: &Reads, q: usize, j: usize) -> u64
    requires { (q < 8) × (j < 4) }
    ensures { (i : ℕ) → i < 64 → bit i result ≡ bit q (here reads.now.own reads.now.round (64 * j + i)) }
{
    if words::has_bit(reads.own, 0) {
        return words::stream_word(q, j);
    }
    let value = words::has_bit(reads.round as u64, q);
    words::spread(value)
}

// The lanes in which x and y are alike.
pub fn alike(x: u64, y: u64) -> u64
    ensures { (i : ℕ) → i < 64 → bit i result ≡ beq (bit i x) (bit i y) }
{
    x & y | !(x | y)
}

// The lanes of acc in which x is stream q of the round itself.
pub fn keep_row<const W: usize>(acc: &mut [u64; W], x: &[u64; W], reads: &Reads, q: usize)
    requires { (W ≤ 4) × (q < 8) }
    ensures size { length acc.new ≡ W }
    ensures words { (j i : ℕ) → j < W → i < 64 → bit i (get_or acc.new j 0) ≡ (bit i (get_or acc.old j 0) && beq (bit i (get_or x.now j 0)) (bit q (here reads.now.own reads.now.round (64 * j + i)))) }
{
    for j in 0..W {
        acc[j] = acc[j] & alike(x[j], here_word(reads, q, j));
    }
}

// Whether no lane of the row is set.
pub fn is_empty<const W: usize>(row: &[u64; W]) -> bool
    ensures { result ≡ list_all (λ x. eqb x 0) row.now }
{
    row.iter().all(|x| *x == 0)
}

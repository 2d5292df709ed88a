// Expressions and equations on rows of W words.
ghost use Rattle.std.specs.Prelude.{◌≡◌, ◌+◌, ◌*◌, ◌<◌, ◌≤◌, length};
ghost use Rattle.lanes.specs.Around.{Stepped};
ghost use Rattle.lanes.specs.Coded.{Values, Agree};

use super::row::{alike, combine, fill_row, is_empty, keep_row, not_row, read_row, store_row};
use super::{Equations, Reads};

// One expression byte on a stack of rows: the top is in `top`, what lies below it, `used` rows, in st. Returns how many then do.
// The operators test `used` for themselves: with one test before them, the compiler loads the words of the row before it knows which operator it
// is, which takes a tenth more instructions.
fn step<const W: usize>(
    st: &mut [u64],
    top: &mut [u64; W],
    used: usize,
    reads: &Reads,
    e: u8,
) -> usize
    requires { (W ≤ 4) × (used < 64) × (W * used + W ≤ length st.old) }
    ensures size { length top.new ≡ W }
    ensures stepped { Stepped W reads.now.env reads.now.own e st.old top.old used st.new top.new result }
{
    if 0x40 <= e {
        store_row(st, used, top);
        read_row(top, reads, e);
        return used + 1;
    }
    if e == 2 {
        not_row(top);
        return used;
    }
    if e == 3 {
        if used == 0 {
            return 0;
        }
        combine(top, &st[W * (used - 1)..W * used], |x, y| x & y);
        return used - 1;
    }
    if 3 < e {
        if e == 4 {
            if used == 0 {
                return 0;
            }
            combine(top, &st[W * (used - 1)..W * used], |x, y| x | y);
            return used - 1;
        }
        if used == 0 {
            return 0;
        }
        combine(top, &st[W * (used - 1)..W * used], alike);
        return used - 1;
    }
    store_row(st, used, top);
    fill_row(top, words::spread(e == 1));
    used + 1
}

// The value of an expression in each lane, left in `top`; st is room to work in.
fn value<const W: usize>(st: &mut [u64], top: &mut [u64; W], reads: &Reads, expr: &[u8])
    requires { (W ≤ 4) × (length expr.now ≤ 64) × (64 * W ≤ length st.old) }
    ensures size { length top.new ≡ W }
    ensures values { Values W reads.now.env reads.now.own expr.now top.new }
{
    let mut used: usize = 0;
    for e in expr {
        used = step(st, top, used, reads, *e);
    }
}

// The lanes in which the outputs have the values of their expressions; st is room to work in.
pub fn agreeing<const W: usize>(equations: &Equations, st: &mut [u64], reads: &Reads) -> [u64; W]
    requires { (W ≤ 4) × (64 * W ≤ length st.old) }
    ensures { Agree W reads.now.env reads.now.own equations.now.size.inputs equations.now.size.outputs equations.now.code.now equations.now.len.now reads.now.round result equations.now.size.outputs }
{
    let mut acc = [0xffff_ffff_ffff_ffff; W];
    let mut x = [0; W];
    for k in 0..equations.size.outputs {
        value(st, &mut x, reads, equations.expression(k));
        keep_row(&mut acc, &x, reads, equations.output_stream(k));
        if is_empty(&acc) {
            return acc;
        }
    }
    acc
}

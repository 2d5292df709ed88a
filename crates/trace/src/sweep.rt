// Sweeps, which refresh places in the order of their keys, and passes over all places. What sheet, letters and buffer have to do with each other
// (`RoundBytes`) stands in each contract, as the buffer is written: a struct with a `&mut` in it can have no ghost field.
ghost use Rattle.std.specs.Prelude.{◌≡◌, true, ◌<◌, ◌≤◌, length};
ghost use Rattle.circular.specs.Table.{reads_of};
ghost use Rattle.circular.specs.Places.{Reads};
ghost use Rattle.trace.specs.Order.{Ordered, InSet, Done, Known};
ghost use Rattle.trace.specs.Passes.{RoundBytes, Refreshed, Extends, Sweeps, sides, Solved};

use super::order::{leads, order_of, round_in, settle};
use super::place::refresh;
use sheet::Sheet;

// The set of all seven outputs. Those that a sheet lacks read nothing, and are settled by the first sweep.
const ALL: u8 = 127;

// Refreshes the outputs of round t, one after the other.
fn refresh_round(sheet: &Sheet, letters: &[u8], buf: &mut [u8], t: usize) -> bool
    requires { RoundBytes sheet.now letters.now buf.old × (1 ≤ t) × (t ≤ length letters.now) }
    ensures { Refreshed sheet.now letters.now (λ q u. u ≡ t) buf.old buf.new result }
{
    let mut changed = false;
    for s in 0..usize::from(sheet.outputs) {
        changed |= refresh(sheet, letters, buf, s, t);
    }
    changed
}

// Refreshes every place once; whether anything changed.
fn pass(sheet: &Sheet, letters: &[u8], buf: &mut [u8]) -> bool
    requires { RoundBytes sheet.now letters.now buf.old }
    ensures { Refreshed sheet.now letters.now (λ q u. Unit {0}) buf.old buf.new result }
{
    let mut changed = false;
    for t in 1..letters.len() + 1 {
        changed |= refresh_round(sheet, letters, buf, t);
    }
    changed
}

// Refreshes until a pass changes nothing.
fn passes(sheet: &Sheet, letters: &[u8], buf: &mut [u8])
    requires { RoundBytes sheet.now letters.now buf.old }
    ensures { Solved sheet.now.outputs (length letters.now) (sides sheet.now letters.now) buf.old buf.new }
{
    let most = usize::from(sheet.outputs) * letters.len();
    for _ in 0..most {
        let changed = pass(sheet, letters, buf);
        let settled = !changed;
        if settled {
            return;
        }
    }
}

// Refreshes the places of a block, of the outputs that have bounded leads, in a sweep up or down.
fn refresh_block(
    sheet: &Sheet,
    letters: &[u8],
    buf: &mut [u8],
    lead: &[u8; 7],
    outputs: &[usize],
    up: bool,
    block: usize,
)
    requires { RoundBytes sheet.now letters.now buf.old × Ordered lead.now sheet.now.outputs outputs.now }
    ensures { Sweeps sheet.now.outputs (length letters.now) (sides sheet.now letters.now) lead.now up (Done lead.now up (length letters.now) outputs.now block 0) (Done lead.now up (length letters.now) outputs.now block (length outputs.now)) buf.old buf.new }
{
    for s in outputs {
        if let Some(t) = round_in(block, lead[*s], letters.len(), up) {
            refresh(sheet, letters, buf, *s, t);
        }
    }
}

// Refreshes the places of the outputs with bounded leads in the order of their keys.
fn sweep(sheet: &Sheet, letters: &[u8], buf: &mut [u8], lead: &[u8; 7], up: bool)
    requires { RoundBytes sheet.now letters.now buf.old }
    ensures { Sweeps sheet.now.outputs (length letters.now) (sides sheet.now letters.now) lead.now up InSet (Known lead.now) buf.old buf.new }
{
    let order = order_of(lead, usize::from(sheet.outputs));
    if order.is_empty() {
        return;
    }
    let end = letters.len() + 7;
    for block in 1..end {
        refresh_block(sheet, letters, buf, lead, &order, up, block);
    }
}

// Sweeps up and down by turns, at most 14, until all outputs are settled; whether they are.
fn sweeps(sheet: &Sheet, letters: &[u8], buf: &mut [u8], masks: &[[u8; 7]; 7]) -> bool
    requires { RoundBytes sheet.now letters.now buf.old }
    ensures { Extends sheet.now.outputs (length letters.now) (sides sheet.now letters.now) masks.now (λ q u. ⊥) (λ q u. result ≡ true) buf.old buf.new }
{
    let mut settled = 0;
    for k in 0..14 {
        if settled == ALL {
            return true;
        }
        let up = k % 2 == 0;
        let lead = leads(masks, usize::from(sheet.outputs), up, settled);
        sweep(sheet, letters, buf, &lead, up);
        settled = settle(&lead, settled);
    }
    settled == ALL
}

// Fills the buffer so that it satisfies the equations. That the sweeps settle every sheet that isn't circular is not proved, so passes stand
// behind them.
pub fn solve(sheet: &Sheet, letters: &[u8], buf: &mut [u8], masks: &[[u8; 7]; 7])
    requires { RoundBytes sheet.now letters.now buf.old × Reads sheet.now.outputs (reads_of masks.now) (length letters.now) (sides sheet.now letters.now) }
    ensures { Solved sheet.now.outputs (length letters.now) (sides sheet.now letters.now) buf.old buf.new }
{
    if !sweeps(sheet, letters, buf, masks) {
        passes(sheet, letters, buf);
    }
}

// The order in which places are refreshed: a value comes after those that it reads.
ghost use Rattle.std.specs.Prelude.{◌≡◌, ◌↔◌, IsTrue, ℕ, ◌<◌, ◌≤◌, get_or};
ghost use Rattle.trace.specs.Order.{Farthest, BehindAll, Raised, Steady, Settled, Due, Ordered, RoundIn};

use arrayvec::ArrayVec;
use words::has_bit;

// Output s in round t has the key 8 t + lead[s], or 8 (rounds + 1 - t) + lead[s] where the sweep goes down. A lead is the largest
// weight of the walks from an output along reads: 9 for a read of the next round in the sweep's direction, 1 for a read now, -7 for
// one of the round before. A value's key is above the keys of the values that it reads, where the leads are bounded.
const LONGEST: u8 = 54;

const UNBOUNDED: u8 = 63;

// How far ahead in the sweep's direction the reads of a mask are at most: 0 for the round before, 1 for now, 2 for the next round.
fn farthest(mask: u8, up: bool) -> u8
    ensures { Farthest mask up result }
{
    let mask = u64::from(mask);
    let next = if up { 2 } else { 0 };
    if has_bit(mask, next) {
        return 2;
    }
    u8::from(has_bit(mask, 1))
}

// The least lead for reads of a mask, of an output with the lead `other`.
fn behind(mask: u8, other: u8, up: bool) -> u8
    ensures { BehindAll mask other up result }
{
    if mask == 0 {
        return 0;
    }
    if LONGEST < other {
        return UNBOUNDED;
    }
    let key = 8 * farthest(mask, up) + other;
    key.saturating_sub(7)
}

// The lead of output s after one read more of an output that isn't settled.
fn raised(masks: &[[u8; 7]; 7], old: &[u8; 7], n: usize, up: bool, settled: u8, s: usize) -> u8
    requires { (n ≤ 7) × (s < 7) }
    ensures { Raised masks.now old.now n up settled s result }
{
    let mut lead = old[s];
    for q in 0..n {
        if !has_bit(u64::from(settled), q) {
            lead = lead.max(behind(masks[s][q], old[q], up));
        }
    }
    lead
}

// The leads after one read more.
fn raise(masks: &[[u8; 7]; 7], old: &[u8; 7], n: usize, up: bool, settled: u8) -> [u8; 7]
    requires { n ≤ 7 }
    ensures { (s : ℕ) → s < 7 → Raised masks.now old.now n up settled s (get_or result s 0) }
{
    let mut lead = [0; 7];
    for s in 0..7 {
        lead[s] = raised(masks, old, n, up, settled, s);
    }
    lead
}

// Settled outputs are left out of a sweep.
fn start(settled: u8) -> [u8; 7] {
    let mut lead = [0; 7];
    for s in 0..7 {
        if has_bit(u64::from(settled), s) {
            lead[s] = UNBOUNDED;
        }
    }
    lead
}

// The leads of the outputs that aren't settled. A walk that comes back to its output with a weight above 0 has one of 9 at least, and no
// more than seven reads: within 64 reads the leads stop rising, or reach the largest.
pub fn leads(masks: &[[u8; 7]; 7], n: usize, up: bool, settled: u8) -> [u8; 7]
    requires { n ≤ 7 }
    ensures { Steady masks.now result n up settled }
{
    let mut lead = start(settled);
    for _ in 0..64 {
        let next = raise(masks, &lead, n, up, settled);
        if lead == next {
            return lead;
        }
        lead = next;
    }
    [UNBOUNDED; 7]
}

// The outputs that have all their values after a sweep.
pub fn settle(lead: &[u8; 7], settled: u8) -> u8
    ensures { Settled lead.now settled result }
{
    let mut set = settled;
    for s in 0..7 {
        if lead[s] <= LONGEST {
            set |= 1 << s;
        }
    }
    set
}

// Whether a lead is bounded, and puts its keys at a place of a block.
fn is_due(lead: u8, place: usize) -> bool
    ensures { IsTrue result ↔ Due lead place }
{
    lead <= LONGEST && usize::from(lead % 8) == place
}

// The order of a sweep: the outputs with bounded leads, one after the other in each block of eight keys, by the places of their keys.
pub fn order_of(lead: &[u8; 7], n: usize) -> ArrayVec<usize, 56>
    requires { n ≤ 7 }
    ensures { Ordered lead.now n result.items }
{
    let mut outputs = ArrayVec::new();
    for place in 0..8 {
        for s in 0..n {
            if is_due(lead[s], place) {
                outputs.push(s);
            }
        }
    }
    outputs
}

// The round of an output in a block.
pub fn round_in(block: usize, lead: u8, rounds: usize, up: bool) -> Option<usize>
    ensures { RoundIn block lead rounds up result }
{
    let late = usize::from(lead / 8);
    if block <= late {
        return None;
    }
    let t = block - late;
    if rounds < t {
        return None;
    }
    Some(if up { t } else { rounds - t + 1 })
}

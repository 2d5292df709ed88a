// The journal record: how many rounds were accepted, whether the journal is closed, and per output how many rounds had each verdict.
#![tactic(auto)]

ghost use Rattle.std.specs.Prelude.{◌≡◌, true, ◌+◌, ◌*◌, ◌<◌, ◌≤◌};
ghost use Rattle.record.specs.Record.{max_rounds, Fresh, column, record_ok, sum_at, Counted, share};

use outcomes::Verdict;
use sheet::OutputNo;

#[derive(Clone, Copy)]
pub struct JournalRecord {
    pub rounds: u32,
    pub closed: bool,
    // true, false, open, broken for output 0, then for output 1, and so on
    pub counts: [u32; 28],
}

impl JournalRecord {
    pub const MAX_ROUNDS: u32 = 1_000_000;

    pub const STORAGE_WORDS: usize = 3_084;

    // Rounds 0, not closed, all tallies 0.
    pub fn fresh() -> JournalRecord
        ensures { Fresh result }
    {
        JournalRecord {
            rounds: 0,
            closed: false,
            counts: [0; 28],
        }
    }
}

// The four counts of output k, added up.
fn sum_at(counts: &[u32; 28], k: OutputNo) -> u64
    requires { k.0 < 7 }
    ensures { result ≡ sum_at counts.now k.0 }
{
    let at = 4 * (k.0 as usize);
    u64::from(counts[at])
        + u64::from(counts[at + 1])
        + u64::from(counts[at + 2])
        + u64::from(counts[at + 3])
}

// Rule 18: whether the record can be one of a journal of n outputs.
pub fn record_ok(r: JournalRecord, n: usize) -> bool
    requires { n ≤ 7 }
    ensures { result ≡ record_ok n r }
{
    if JournalRecord::MAX_ROUNDS < r.rounds {
        return false;
    }
    let t = r.rounds as u64;
    for k in 0..n {
        if sum_at(&r.counts, OutputNo(k as u8)) != t {
            return false;
        }
    }
    true
}

// The place of a verdict among an output's four counts. No From: neither type is of this crate.
fn column_of(verdict: Verdict) -> usize
    ensures { result ≡ column verdict }
{
    match verdict {
        Verdict::True => 0,
        Verdict::False => 1,
        Verdict::Open => 2,
        Verdict::Broken => 3,
    }
}

// Where output k's count of a verdict stands.
fn count_index(k: OutputNo, verdict: Verdict) -> usize
    requires { k.0 < 7 }
    ensures { result ≡ 4 * k.0 + column verdict }
{
    4 * (k.0 as usize) + column_of(verdict)
}

// The record after one round more: counts one verdict for each of its n outputs.
pub fn with_round(r: JournalRecord, n: usize, verdicts: [Verdict; 7]) -> JournalRecord
    requires { (n ≤ 7) × (record_ok n r ≡ true) × (r.rounds < max_rounds) }
    ensures { (result.rounds ≡ r.rounds + 1) × (result.closed ≡ r.closed) × Counted n verdicts r.counts result.counts }
{
    let mut counts = r.counts;
    for k in 0..n {
        let at = count_index(OutputNo(k as u8), verdicts[k]);
        counts[at] = counts[at] + 1;
    }
    JournalRecord {
        rounds: r.rounds + 1,
        closed: r.closed,
        counts,
    }
}

// True rounds per thousand, to the nearest, halves to the even number.
pub fn share_of(trues: u32, rounds: u32) -> u32
    requires { (1 ≤ rounds) × (trues ≤ rounds) }
    ensures { result ≡ share trues rounds }
{
    let scaled = 1000 * (trues as u64);
    let t = rounds as u64;
    let q = (scaled / t) as u32;
    let r = scaled % t;
    // Beyond the half, or at the half and q is odd.
    let whole = t;
    if whole < 2 * r + (q % 2) as u64 {
        return q + 1;
    }
    q
}

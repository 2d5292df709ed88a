// The journal record and the answers as slices of 32-bit numbers.
#![tactic(auto)]

ghost use Rattle.std.specs.Prelude.{◌≡◌, ◌+◌, ◌≤◌, ◌&&◌, eqb, leb, length};
ghost use Rattle.std.proofs.Math.Seq.{paste};
ghost use Rattle.slices.specs.Slices.{numbers_of, verdict_numbers};
ghost use Rattle.slices.specs.Loaded.{rounds_by, loaded};

use outcomes::Verdict;
use record::JournalRecord;

// The record has 30 numbers, and the answer room for 16.
pub fn sized(rec: usize, answer: usize) -> bool
    ensures { result ≡ (eqb rec 30 && leb 16 answer) }
{
    rec == 30 && 16 <= answer
}

// The numbers of the first n verdicts, from a place on.
pub fn put_verdicts(into: &mut [u32], at: usize, verdicts: [Verdict; 7], n: usize)
    requires { (n ≤ 7) × (at + n ≤ length into.old) }
    ensures { into.new ≡ paste into.old at (verdict_numbers verdicts n) n }
{
    for i in 0..n {
        into[at + i] = u32::from(verdicts[i]);
    }
}

// The first n numbers, from a place on.
pub fn put_numbers(into: &mut [u32], at: usize, xs: &[u32], n: usize)
    requires { (n ≤ length xs.now) × (at + n ≤ length into.old) }
    ensures { into.new ≡ paste into.old at xs.now n }
{
    let end = at + n;
    into[at..end].copy_from_slice(&xs[..n]);
}

// A mark other than 0 and 1 makes the rounds too many.
fn rounds_by(mark: u32, rounds: u32) -> u32
    ensures { result ≡ rounds_by mark rounds }
{
    if 1 < mark {
        return JournalRecord::MAX_ROUNDS + 1;
    }
    rounds
}

// The record that 30 numbers hold; a wrong mark makes it one that rule 18 refuses.
pub fn load(ns: &[u32]) -> JournalRecord
    requires { length ns.now ≡ 30 }
    ensures { result ≡ loaded ns.now }
{
    let mut counts = [0u32; 28];
    counts.copy_from_slice(&ns[2..30]);
    let mark = ns[1];
    JournalRecord {
        rounds: rounds_by(mark, ns[0]),
        closed: mark == 1,
        counts,
    }
}

// Puts the record into 30 numbers.
pub fn store(ns: &mut [u32], r: JournalRecord)
    requires { length ns.old ≡ 30 }
    ensures { ns.new ≡ numbers_of r }
{
    ns[0] = r.rounds;
    ns[1] = u32::from(r.closed);
    put_numbers(ns, 2, &r.counts, 28);
}

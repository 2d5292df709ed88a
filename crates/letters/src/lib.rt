// A round's set of letters: bit l of the word is letter l. What it is refused for, and how it is made from masks.
#![tactic(auto)]

ghost use Rattle.std.specs.Prelude.{◌≡◌, ◌&&◌, ℕ, ◌%◌, ◌^◌, ◌<◌, ◌≤◌, ltb};
ghost use Rattle.words.specs.Bits.{bit};
ghost use Rattle.letters.specs.Masks.{bad_masks};
ghost use Rattle.letters.specs.Matching.{agrees, matches};
ghost use Rattle.letters.specs.Sets.{bad_set, MasksCall};

use outcomes::Refusal;

// Rule 11 for masks: a known bit beyond m, or a value bit that isn't known.
fn bad_masks(m: u8, known: u8, value: u8) -> bool
    requires { m ≤ 6 }
    ensures { result ≡ bad_masks m known value }
{
    let size: u8 = 1 << m;
    if known < size {
        return value & known != value;
    }
    true
}

// The letters that agree with the masks in input i, out of a set.
fn narrowed(set: u64, known: u8, value: u8, i: usize) -> u64
    requires { i < 6 }
    ensures { (l : ℕ) → l < 64 → bit l result ≡ (bit l set && agrees known value i l) }
{
    if words::has_bit(known as u64, i) {
        let want = words::has_bit(value as u64, i);
        return set & words::agree(words::stream_word(i, 0), want);
    }
    set
}

// The letters of m inputs that match the masks.
fn letters_of(m: u8, known: u8, value: u8) -> u64
    requires { m ≤ 6 }
    ensures { (l : ℕ) → l < 64 → bit l result ≡ (ltb l (2 ^ m) && matches known value 6 l) }
{
    let size: usize = 1 << m;
    let mut set = words::lanes_below(size, 0);
    for i in 0..6 {
        set = narrowed(set, known, value, i);
    }
    set
}

// The set of the letters of m inputs that agree with the masks.
pub fn from_masks(m: u8, known: u8, value: u8) -> Result<u64, Refusal>
    ensures { MasksCall m known value result }
{
    if m == 0 || 6 < m {
        return Err(Refusal::Counts);
    }
    if bad_masks(m, known, value) {
        return Err(Refusal::Letter);
    }
    Ok(letters_of(m, known, value))
}

// Rule 21: a set that is empty, or has a letter beyond m inputs. Six inputs have a letter for every bit.
pub fn bad_set(m: u8, set: u64) -> bool
    requires { m ≤ 6 }
    ensures { result ≡ bad_set m set }
{
    if set == 0 {
        return true;
    }
    if m == 6 {
        return false;
    }
    let letters: u8 = 1 << m;
    set >> letters != 0
}

// The letters of m inputs that are in a set, repeated in all lanes: lane l has the letter of l's first m bits. A product with a number whose
// bits are 2^m apart puts the part of 2^m lanes next to itself.
pub fn repeated(set: u64, m: usize) -> u64
    requires { (1 ≤ m) × (m ≤ 6) }
    ensures { (l : ℕ) → l < 64 → bit l result ≡ bit (l % 2 ^ m) set }
{
    match m {
        1 => (set & 0x3) * 0x5555_5555_5555_5555,
        2 => (set & 0xf) * 0x1111_1111_1111_1111,
        3 => (set & 0xff) * 0x0101_0101_0101_0101,
        4 => (set & 0xffff) * 0x0001_0001_0001_0001,
        5 => (set & 0xffff_ffff) * 0x0000_0001_0000_0001,
        _ => set,
    }
}

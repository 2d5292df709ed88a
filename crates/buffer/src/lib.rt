// Bytes and numbers put into a buffer from a place on. Each function answers the place after them.
// Buffer and place stay two parameters: what stands behind the text is promised too, and the edits of must-fail/ name the place.
#![tactic(auto)]

ghost use Rattle.std.specs.Prelude.{[], ◌∷◌, ◌+◌, ◌<◌, ◌≤◌, length};
ghost use Rattle.buffer.specs.Decimal.{decimal};
ghost use Rattle.buffer.specs.Wrote.{Placed};

// One byte.
#[tactic(auto, using(crate::proofs::PlacedLaws::placed_byte))]
pub fn byte(out: &mut [u8], at: usize, b: u8) -> usize
    requires { at < length out.old }
    ensures { Placed out.old at (b ∷ []) out.new result }
{
    out[at] = b;
    at + 1
}

// All bytes of a slice.
pub fn bytes(out: &mut [u8], at: usize, s: &[u8]) -> usize
    requires { at + length s.now ≤ length out.old }
    ensures { Placed out.old at s.now out.new result }
{
    let mut to = at;
    for b in s {
        to = byte(out, to, *b);
    }
    to
}

// A number in decimal. It goes down digit by digit, as the definition does, and not by a crate's print of numbers.
pub fn decimal(out: &mut [u8], at: usize, n: u64) -> usize
    requires { at + length (decimal n) ≤ length out.old }
    ensures { Placed out.old at (decimal n) out.new result }
{
    if n < 10 {
        byte(out, at, 48 + n as u8)
    } else {
        let to = decimal(out, at, n / 10);
        byte(out, to, 48 + (n % 10) as u8)
    }
}

// One place: an output in a round. Its value is worked out from the letters and the buffer, and put into the buffer.
ghost use Rattle.std.specs.Prelude.{◌≡◌, false, ◌+◌, ◌*◌, ◌<◌, ◌≤◌, ◌^◌, length, get_or};
ghost use Rattle.trace.specs.Passes.{RoundBytes, SeenRound, Environment, BitPut, sides, Renewed};

use circular::reads::expression;
use sheet::Sheet;
use words::has_bit;

// The valuation of the round with index i: its letter in the low m bits, its output byte above.
fn valuation(m: u8, letters: &[u8], buf: &[u8], i: usize) -> u64
    requires { (m ≤ 8) × (i < length letters.now) × (i < length buf.now) }
    ensures { result ≡ get_or letters.now i 0 + 2 ^ m * get_or buf.now i 0 }
{
    u64::from(letters[i]) + (u64::from(buf[i]) << m)
}

// False in each stream, and true in each.
const NO_ROUND: u64 = 0xff00;

// The streams of round at - 1 twice, or false and true where there is no such round.
fn round_twice(sheet: &Sheet, letters: &[u8], buf: &[u8], at: usize) -> u64
    requires { RoundBytes sheet.now letters.now buf.now }
    ensures { SeenRound sheet.now.inputs letters.now buf.now at result }
{
    let last = letters.len() + 1;
    if at < 2 || last < at {
        return NO_ROUND;
    }
    let v = valuation(sheet.inputs, letters, buf, at - 2);
    v + 256 * v
}

// The reads of round t in one word: two bytes each for now, earlier and later.
fn environment(sheet: &Sheet, letters: &[u8], buf: &[u8], t: usize) -> u64
    requires { RoundBytes sheet.now letters.now buf.now × (1 ≤ t) × (t ≤ length letters.now) }
    ensures { Environment sheet.now.inputs letters.now buf.now t result }
{
    let current = round_twice(sheet, letters, buf, t + 1);
    let earlier = round_twice(sheet, letters, buf, t);
    let later = round_twice(sheet, letters, buf, t + 2);
    current + 65536 * (earlier + 65536 * later)
}

// Makes bit s of byte i the value v; whether that changed it. The byte is stored in any case: no processor foretells what the values are.
fn put_bit(buf: &mut [u8], i: usize, s: usize, v: bool) -> bool
    requires { (i < length buf.old) × (s < 8) }
    ensures { BitPut i s v buf.old buf.new result }
{
    let old = buf[i];
    let changed = has_bit(u64::from(old), s) != v;
    buf[i] = old ^ (u8::from(changed) << s);
    changed
}

// Works out output s in round t anew; whether that changed it.
pub fn refresh(sheet: &Sheet, letters: &[u8], buf: &mut [u8], s: usize, t: usize) -> bool
    requires { RoundBytes sheet.now letters.now buf.old × (s < sheet.now.outputs) × (1 ≤ t) × (t ≤ length letters.now) }
    ensures { Renewed sheet.now.outputs (sides sheet.now letters.now) s t buf.old buf.new × (result ≡ false → buf.new ≡ buf.old) }
{
    let env = environment(sheet, letters, buf, t);
    let v = lola::value_bit(env, expression(sheet, s));
    put_bit(buf, t - 1, s, v)
}

// The value of one expression in one round. The definitions of the language stand in specs/.
#![tactic(auto)]

ghost use Rattle.std.specs.Prelude.{◌≡◌, [], ◌<◌, ◌≤◌, ◌^◌, length};
ghost use Rattle.sheet.specs.Expression.{Expr, parse, tree};
ghost use Rattle.sheet.specs.declared.Grammar.{Grammar};
ghost use Rattle.lola.specs.Value.{value};
ghost use Rattle.lola.specs.Slots.{slots, Works};

pub mod reads; // reads.rt: what an expression reads

// One byte of an expression, on a stack of bits whose top is bit 0. Bit byte - 0x40 of `env` is the value of the read `byte`.
fn step_bit(env: u64, stack: u64, byte: u8) -> u64
    requires { stack < 2 ^ 63 }
    ensures { Works env stack byte result }
{
    // Most bytes are reads: they are asked for first, as a match asks for a range last.
    if 0x40 <= byte {
        return stack * 2 + (env >> (byte % 64)) % 2;
    }
    match byte {
        2 => stack ^ 1,
        3 => {
            if stack % 2 == 1 {
                stack / 2
            } else {
                stack / 4 * 2
            }
        }
        4 => {
            if stack % 2 == 0 {
                stack / 2
            } else {
                stack / 4 * 2 + 1
            }
        }
        // 05: of the bytes that an expression may have below 40, no other is above 4.
        5.. => stack / 4 * 2 + (stack % 2 + stack / 2 % 2 + 1) % 2,
        0 | 1 => stack * 2 + u64::from(byte),
    }
}

// The value of an expression whose reads are the bits of `env`.
pub fn value_bit(env: u64, e: &[u8]) -> bool
    requires { length e.now ≤ 64 }
    ensures { (s : Grammar) (t : Expr) → parse s [] e.now ≡ tree t → result ≡ value (slots env) t }
{
    let mut stack = 0;
    for byte in e {
        stack = step_bit(env, stack, *byte);
    }
    stack % 2 == 1
}

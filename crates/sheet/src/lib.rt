// The language of a rule sheet: its versions, its bytes, its expressions, its counts, and the types of what is read. Rules 3, 4, 7 and 8.
#![tactic(auto)]

ghost use Rattle.std.specs.Prelude.{◌≡◌, true, ℕ, ◌+◌, ◌-◌, ◌<◌, ◌≤◌, ◌^◌, [], cond, ltb, length, get_or};
ghost use Rattle.outcomes.specs.declared.Refusal.TheVariants.{Values};
ghost use Rattle.sheet.specs.Bytes.{op_of};
ghost use Rattle.sheet.specs.Expression.{parse, outcome_of};
ghost use Rattle.sheet.specs.Depth.{depth_after};
ghost use Rattle.sheet.specs.Header.{version_ok, counts_ok};
ghost use Rattle.sheet.specs.Parts.{Ranges, Below, code_at, parses};

use outcomes::Refusal;

// A stream's number counts the inputs first; an output's number counts outputs alone.
#[derive(Clone, Copy)]
pub struct StreamNo(pub u8);

#[derive(Clone, Copy)]
pub struct OutputNo(pub u8);

// Output k is stream m + k: the one place where the two counts are joined.
pub fn stream_of(m: u8, k: OutputNo) -> StreamNo
    requires { m + k.0 < 256 }
    ensures { result.0 ≡ m + k.0 }
{
    StreamNo(m + k.0)
}

// The round that a read looks at, beside the round of its value.
#[derive(Clone, Copy)]
pub enum Offset {
    Earlier,
    Now,
    Later,
}

// What an expression byte does. A read has its stream, its round, and its value where there is no such round.
#[derive(Clone, Copy)]
pub enum Op {
    Const(bool),
    Not,
    And,
    Or,
    Equal,
    Read(StreamNo, Offset, bool),
}

impl TryFrom<u8> for Op {
    type Error = Refusal;

    ghost try_from_gives = { λ byte r. r ≡ op_of byte };

    // The last three bits of a read's byte number its stream.
    fn try_from(byte: u8) -> Result<Op, Refusal> {
        let stream = StreamNo(byte % 8);
        match byte {
            0x00 => Ok(Op::Const(false)),
            0x01 => Ok(Op::Const(true)),
            0x02 => Ok(Op::Not),
            0x03 => Ok(Op::And),
            0x04 => Ok(Op::Or),
            0x05 => Ok(Op::Equal),
            0x40..=0x47 => Ok(Op::Read(stream, Offset::Now, false)),
            0x50..=0x57 => Ok(Op::Read(stream, Offset::Earlier, false)),
            0x58..=0x5F => Ok(Op::Read(stream, Offset::Earlier, true)),
            0x60..=0x67 => Ok(Op::Read(stream, Offset::Later, false)),
            0x68..=0x6F => Ok(Op::Read(stream, Offset::Later, true)),
            _ => Err(Refusal::Byte),
        }
    }
}

// The newest version of a sheet. It adds the byte 05 to version 1.
const NEWEST: u64 = 2;

#[tactic(auto, unfolding(crate::specs::Header::version_ok))]
pub fn version_fits(v: u64) -> bool
    ensures { result ≡ version_ok v }
{
    v == 1 || v == NEWEST
}

// What a sheet says of the bytes that may stand in its expressions: its version, and how many streams there are.
#[derive(Clone, Copy)]
pub struct Grammar {
    pub version: u64,
    pub streams: u8,
}

// The number of values after an operator of so many values, of which it leaves one.
fn after_operator(values: usize, depth: usize) -> Result<usize, Refusal>
    requires { depth + 1 < 2 ^ 64 }
    ensures { result ≡ cond (ltb depth values) (Err Values) (Ok (depth + 1 - values)) }
{
    if depth < values {
        return Err(Refusal::Values);
    }
    Ok(depth + 1 - values)
}

// The number of values on the stack after a byte, or the rule that the byte breaks.
#[tactic(auto, unfolding(crate::specs::Depth::depth_after))]
fn after_byte(byte: u8, grammar: Grammar, depth: usize) -> Result<usize, Refusal>
    requires { depth + 1 < 2 ^ 64 }
    ensures { result ≡ depth_after grammar (op_of byte) depth }
{
    let op = Op::try_from(byte)?;
    match op {
        Op::Const(_) => Ok(depth + 1),
        Op::Not => after_operator(1, depth),
        Op::And => after_operator(2, depth),
        Op::Or => after_operator(2, depth),
        Op::Equal => {
            let first = NEWEST;
            if grammar.version < first {
                return Err(Refusal::Byte);
            }
            after_operator(2, depth)
        }
        Op::Read(stream, _, _) => {
            let q = stream.0;
            if q < grammar.streams {
                return Ok(depth + 1);
            }
            Err(Refusal::Byte)
        }
    }
}

// Checks one output's expression, a stretch of the sheet.
pub fn read_expression(e: &[u8], grammar: Grammar) -> Result<(), Refusal>
    ensures { result ≡ outcome_of (parse grammar [] e.now) }
{
    let mut depth = 0;
    for byte in e {
        depth = after_byte(*byte, grammar, depth)?;
    }
    let left = depth;
    if left == 1 {
        Ok(())
    } else {
        Err(Refusal::Values)
    }
}

// What the first 8 bytes say: the numbers of inputs and outputs, and the assumption, the output that must be true in every round.
#[derive(Clone, Copy)]
pub struct Header {
    pub inputs: u8,
    pub outputs: u8,
    pub assumed: Option<OutputNo>,
}

#[tactic(auto, unfolding(crate::specs::Header::counts_ok))]
pub fn counts_fit(m: u8, n: u8) -> bool
    ensures { result ≡ counts_ok m n }
{
    1 <= m && m <= 6 && 1 <= n && n <= 7 && m + n <= 8
}

// A sheet that was read: the numbers of inputs and outputs, the assumption, and the expressions: output k's are the first len[k]
// of the 64 bytes from 64 k on.
#[derive(Clone, Copy)]
pub struct Sheet {
    pub inputs: u8,
    pub outputs: u8,
    pub assumed: Option<OutputNo>,
    pub len: [usize; 7],
    pub code: [u8; 448],
    pub ghost ranges: { Ranges inputs outputs },
    pub ghost code_size: { length code ≡ 448 },
    pub ghost sizes: { length len ≡ 7 },
    pub ghost below: { Below assumed outputs },
    pub ghost small: { (k : ℕ) → k < outputs → get_or len k 0 ≤ 64 },
    pub ghost parts: { (k : ℕ) → k < outputs → parses (inputs + outputs) (code_at code len k) ≡ true },
}

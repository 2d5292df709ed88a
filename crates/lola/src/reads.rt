// What an expression reads: the set of its read bytes in one word, bit byte - 0x40 for the read `byte`.
ghost use Rattle.std.specs.Prelude.{◌≡◌, ◌&&◌, ℕ, ◌/◌, ◌%◌, eqb};
ghost use Rattle.words.specs.Bits.{bit};
ghost use Rattle.lola.specs.Reads.{offset_no};
ghost use Rattle.lola.specs.ByteReads.{read_in, ReadsOf};

use sheet::Offset;

// The bit of one byte. Of the bytes that an expression may have, the reads begin at 64 and end below 128: the bit is set for them alone.
fn byte_read(byte: u8) -> u64
    ensures { (k : ℕ) → bit k result ≡ (eqb (byte / 64 % 2) 1 && eqb k (byte % 64)) }
{
    let b = u64::from(byte);
    (b / 64 % 2) << (b % 64)
}

// The reads of an expression.
pub fn expression_reads(e: &[u8]) -> u64
    ensures { ReadsOf e.now result }
{
    let mut word = 0;
    for byte in e {
        word |= byte_read(*byte);
    }
    word
}

// The streams that a word has reads of at an offset, as a mask. Reads with the default true stand 8 above those with the default false.
pub fn streams_at(word: u64, o: Offset) -> u64
    ensures { (q : ℕ) → bit q result ≡ read_in word q (offset_no o) }
{
    let both = word | (word >> 8);
    match o {
        Offset::Earlier => (both >> 16) % 256,
        Offset::Now => both % 256,
        Offset::Later => (both >> 32) % 256,
    }
}

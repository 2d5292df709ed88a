// The reads between the outputs of a sheet, from the bytes of its expressions.
ghost use Rattle.std.specs.Prelude.{◌≡◌, ℕ, ◌<◌, ◌≤◌, length, get_or};
ghost use Rattle.sheet.specs.Parts.{code_at};
ghost use Rattle.sheet.specs.Reading.{rule_sheet};
ghost use Rattle.circular.specs.Masks.{OutputWords, Mask, MaskRow, Tells};

use lola::reads::{expression_reads, streams_at};
use sheet::{Offset, OutputNo, Sheet, StreamNo};
use words::has_bit;

// The bytes of output k's expression.
pub fn expression(sheet: &Sheet, k: usize) -> &[u8]
    requires { k < sheet.now.outputs }
    ensures { result.now ≡ code_at sheet.now.code sheet.now.len k }
{
    let from = 64 * k;
    let to = from + sheet.len[k];
    &sheet.code[from..to]
}

// The reads of each output in a word; none where there is no such output. It takes the parts of a sheet: nothing else is asked of one.
pub fn all_reads(code: &[u8], len: &[usize], n: usize) -> [u64; 7]
    requires { (n ≤ 7) × (length code.now ≡ 448) × (length len.now ≡ 7) × ((k : ℕ) → k < n → get_or len.now k 0 ≤ 64) }
    ensures { OutputWords code.now len.now n result }
{
    let mut words = [0; 7];
    for s in 0..n {
        let from = 64 * s;
        let to = from + len[s];
        words[s] = expression_reads(&code[from..to]);
    }
    words
}

// The offsets at which a word has a read of a stream: 1 earlier, 2 now, 4 later, added up.
pub fn mask_at(word: u64, stream: StreamNo) -> u8
    requires { stream.0 < 16 }
    ensures { Mask word stream.0 result }
{
    let q = usize::from(stream.0);
    let earlier = has_bit(streams_at(word, Offset::Earlier), q);
    let now = has_bit(streams_at(word, Offset::Now), q);
    let later = has_bit(streams_at(word, Offset::Later), q);
    u8::from(earlier) + 2 * u8::from(now) + 4 * u8::from(later)
}

// The masks of a word's reads of the outputs.
fn masks_of(word: u64, m: u8) -> [u8; 7]
    requires { m ≤ 6 }
    ensures { MaskRow word m result }
{
    let mut masks = [0; 7];
    for q in 0..7 {
        let stream = sheet::stream_of(m, OutputNo(q as u8));
        masks[q] = mask_at(word, stream);
    }
    masks
}

// The masks of the reads of each output.
pub fn sheet_masks(sheet: &Sheet) -> [[u8; 7]; 7]
    ensures { Tells (rule_sheet sheet.now) result }
{
    let words = all_reads(&sheet.code, &sheet.len, sheet.outputs as usize);
    let mut masks = [[0; 7]; 7];
    for s in 0..7 {
        masks[s] = masks_of(words[s], sheet.inputs);
    }
    masks
}

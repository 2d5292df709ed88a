// The letters that fit an alternative's marks, looked up in a table by the index of the marks.
#![tactic(auto)]

ghost use Rattle.std.specs.Prelude.{◌≡◌, ◌<◌, ◌≤◌, length};
ghost use Rattle.buffer.specs.Wrote.{Placed};
ghost use Rattle.letter_table.specs.Entry.{entry_of, table_text, Sets};

use buffer::{byte, decimal};

mod table; // table.rt: the numbers

pub use table::sets;

// The table, where some numbers are it: marks make an index, so nothing is searched. It borrows them, wherever they lie. A constant array is built
// anew wherever it is indexed: a program makes the numbers once and lends them.
#[derive(Clone, Copy)]
pub struct LetterTable<'a> {
    pub entries: &'a [u64],
    pub ghost sets: { Sets entries.now },
}

impl<'a> LetterTable<'a> {
    // The entry of an index.
    pub fn entry(&self, e: usize) -> u64
        requires { e < 729 }
        ensures { result ≡ entry_of e }
    {
        self.entries[e]
    }

    // All entries in decimal, one a line, at the start of `out`: at most 729 * 21 bytes. Answers how many.
    #[tactic(auto, using(buffer::proofs::DecimalLaws::word_digits))]
    pub fn table_text(&self, out: &mut [u8]) -> usize
        requires { 15309 ≤ length out.old }
        ensures text { Placed out.old 0 (table_text 0 729) out.new result }
        ensures bound { result ≤ length out.new }
    {
        let mut to = 0;
        for e in 0..729 {
            let digits = decimal(out, to, self.entry(e));
            to = byte(out, digits, b'\n');
        }
        to
    }
}

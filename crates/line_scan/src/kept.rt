// What the marks and bars of a line come to, and what a line is read by.
ghost use Rattle.std.specs.Prelude.{◌≤◌};

use letter_table::LetterTable;

// What a line is read by: the table of letter sets, and how many inputs there are, each with a mark in every alternative.
#[derive(Clone, Copy)]
pub struct Lookup<'a> {
    pub table: LetterTable<'a>,
    pub inputs: u8,
    pub ghost few: { inputs ≤ 6 },
}

// The letters that fit one of the alternatives that a bar ended. Of the one at hand: how many marks it has, their index in the table of letter
// sets, and what a digit of the next mark counts there, 3 to the number of marks.
#[derive(Clone, Copy)]
pub struct Alternatives {
    pub set: u64,
    pub count: u8,
    pub index: u16,
    pub place: u16,
}

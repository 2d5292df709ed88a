// The program that prints the table of letter sets: its entries from 0 up, in decimal, one a line. It takes no input.
#![tactic(auto)]

use letter_table::LetterTable;

fn main(rt: HostRuntime) {
    let sets = letter_table::sets();
    let table = LetterTable { entries: &sets };
    let mut out = [0; 65536];
    let to = table.table_text(&mut out);
    if let Err(error) = rt.write_all(&out[..to]) {
        failures::fail(&rt, "letter_sets: cannot write standard output", error);
    }
}

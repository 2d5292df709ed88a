// A line on standard error that says what failed, and why.
#![tactic(auto)]

use arrayvec::ArrayVec;
use std::fmt;
use std::fmt::Write;
use std::io::Error;

// The first bytes of a text. What there is no room for is left out, where an `ArrayString` would refuse the whole piece.
#[derive(Drop)]
struct Beginning(ArrayVec<u8, 256>);

impl Write for Beginning {
    fn write_str(&mut self, s: &str) -> fmt::Result {
        for byte in s.as_bytes() {
            let _ = self.0.try_push(*byte);
        }
        Ok(())
    }
}

impl Beginning {
    fn as_str(&self) -> &str {
        str::from_utf8(self.0.as_slice()).unwrap_or("")
    }
}

// A text up to the number of an error, which the system's words have behind them.
fn without_number(text: &str) -> &str {
    text.split_once(" (os error ")
        .map_or(text, |(words, _)| words)
}

// Writes what failed, a colon and the system's words for the error. If that fails too, nobody hears of it.
pub fn fail(rt: &impl Eprint, what: &str, error: Error) {
    let mut text = Beginning(ArrayVec::new());
    let _ = write!(text, "{error}");
    let reason = without_number(text.as_str());
    let _ = eprintln!(rt; "{what}: {reason}");
}

// The line that is being read: what its bytes so far come to, and what it stands for once it is whole.
#![tactic(auto)]

ghost use Rattle.std.specs.Prelude.{◌≡◌, true, false, List, [], ◌∷◌, ◌++◌, ℕ, ◌≤◌, ◌<◌, length};
ghost use Rattle.line_scan.specs.Lines.{is_mark, read_line, all_letters, asked};
ghost use Rattle.line_scan.specs.Index.{mark_digit};
ghost use Rattle.line_scan.specs.Scan.{Indexed, InTable, no_marks, joined, Parted, Marked, Scanned};
ghost use Rattle.line_scan.specs.Meaning.{line_of};

mod kept; // kept.rt: what is kept of a line's alternatives

pub use kept::{Alternatives, Lookup};

// What the bytes of a line are: none; marks and bars; a lone dot; or the beginning of no line that is well formed.
#[derive(Clone, Copy)]
pub enum Pending {
    Blank,
    Marks(Alternatives),
    Dot,
    Malformed,
}

// What a whole line is: blank, a round with its set of letters, the closing, or no call at all.
#[derive(Clone, Copy)]
pub enum Meaning {
    Blank,
    Round(u64),
    Closing,
    Malformed,
}

fn is_mark(b: u8) -> bool
    ensures { result ≡ is_mark b }
{
    matches!(b, b'0' | b'1' | b'?')
}

// The digit of a mark. The compiler makes no branch of these cases; a processor couldn't foresee it.
fn mark_digit(b: u8) -> u16
    ensures { result ≡ mark_digit b }
{
    match b {
        b'?' => 2,
        b'1' => 1,
        _ => 0,
    }
}

impl Alternatives {
    // No byte of an alternative has come; of the alternatives before it, this is the set.
    fn after(set: u64) -> Alternatives
        ensures fields { result ≡ no_marks set }
        ensures indexed { Indexed result }
    {
        Alternatives {
            set,
            count: 0,
            index: 0,
            place: 1,
        }
    }

    // One mark more.
    fn mark(self, b: u8) -> Pending
        requires { Indexed self × (self.count < 6) }
        ensures scanned { (m : ℕ) (part : List ℕ) → self.count < m → (b ≡ 124 → ⊥) → (length part ≡ 0 → b ≡ 46 → ⊥) → Parted m part self → Scanned m (part ++ b ∷ []) result }
        ensures in_table { InTable result }
    {
        if !is_mark(b) {
            return Pending::Malformed;
        }
        let index = self.index + mark_digit(b) * self.place;
        Pending::Marks(Alternatives {
            set: self.set,
            count: self.count + 1,
            index,
            place: 3 * self.place,
        })
    }

    // One byte more.
    fn byte(self, by: Lookup, b: u8) -> Pending
        requires { Indexed self }
        ensures scanned { (part : List ℕ) → (length part ≡ 0 → b ≡ 46 → ⊥) → Parted by.entry.inputs part self → Scanned by.entry.inputs (part ++ b ∷ []) result }
        ensures in_table { InTable result }
    {
        if b == b'|' {
            if self.count != by.inputs {
                return Pending::Malformed;
            }
            return Pending::Marks(Alternatives::after(self.line_set(by)));
        }
        if by.inputs <= self.count {
            return Pending::Malformed;
        }
        self.mark(b)
    }

    // The set of all alternatives so far, that of the one at hand being looked up.
    fn line_set(self, by: Lookup) -> u64
        requires { Indexed self }
        ensures { result ≡ joined self }
    {
        self.set | by.table.entry(usize::from(self.index))
    }

    // The line ends here: it stands for a round, or is too short for one behind its last bar.
    fn ended(self, by: Lookup) -> Meaning
        requires { Indexed self }
        ensures { (part : List ℕ) → Marked by.entry.inputs part self → read_line by.entry.inputs part ≡ line_of result }
    {
        if self.count != by.inputs {
            return Meaning::Malformed;
        }
        Meaning::Round(self.line_set(by))
    }
}

// All letters of m inputs.
fn all_letters(m: u8) -> u64
    requires { m ≤ 6 }
    ensures { result ≡ all_letters m }
{
    words::lanes_below(1 << m, 0)
}

impl Meaning {
    // What the line asks of a journal of m inputs: a blank one asks for a round of which nothing was heard, and for nothing once it is closed.
    fn asked(self, m: u8, closed: bool) -> Meaning
        requires { m ≤ 6 }
        ensures { asked m closed (line_of self) ≡ line_of result }
    {
        match self {
            Meaning::Blank if !closed => Meaning::Round(all_letters(m)),
            other => other,
        }
    }
}

impl Pending {
    pub fn empty() -> Pending
        ensures scanned { (m : ℕ) → Scanned m [] result }
        ensures in_table { InTable result }
    {
        Pending::Blank
    }

    // Whether no byte of the line has come.
    pub fn is_blank(self) -> bool
        ensures yes { result ≡ true → (m : ℕ) (part : List ℕ) → Scanned m part self → part ≡ [] }
        ensures no { result ≡ false → (m : ℕ) (part : List ℕ) → Scanned m part self → part ≡ [] → ⊥ }
    {
        matches!(self, Pending::Blank)
    }

    // One byte more.
    pub fn scan(self, by: Lookup, b: u8) -> Pending
        requires { InTable self }
        ensures scanned { (part : List ℕ) → Scanned by.entry.inputs part self → Scanned by.entry.inputs (part ++ b ∷ []) result }
        ensures in_table { InTable result }
    {
        match self {
            Pending::Blank if b == b'.' => Pending::Dot,
            Pending::Blank => Alternatives::after(0).byte(by, b),
            Pending::Marks(q) => q.byte(by, b),
            Pending::Dot => Pending::Malformed,
            Pending::Malformed => Pending::Malformed,
        }
    }

    // The line ends here.
    fn ended(self, by: Lookup) -> Meaning
        requires { InTable self }
        ensures { (part : List ℕ) → Scanned by.entry.inputs part self → read_line by.entry.inputs part ≡ line_of result }
    {
        match self {
            Pending::Blank => Meaning::Blank,
            Pending::Marks(q) => q.ended(by),
            Pending::Dot => Meaning::Closing,
            Pending::Malformed => Meaning::Malformed,
        }
    }

    // What the line asks of a journal that is closed or not if it ends here.
    pub fn asked(self, by: Lookup, closed: bool) -> Meaning
        requires { InTable self }
        ensures { (part : List ℕ) → Scanned by.entry.inputs part self → asked by.entry.inputs closed (read_line by.entry.inputs part) ≡ line_of result }
    {
        self.ended(by).asked(by.inputs, closed)
    }
}

// The marked examples of the language, as a table and one theorem, and others: each theorem the contract of a function that does nothing.
#![tactic(auto)]

ghost use Rattle.examples.specs.Longest.{LongestMet};
ghost use Rattle.examples.specs.Reaches.{ReachExamples};
ghost use Rattle.examples.specs.Table.{Examples, OneAnswer};
ghost use Rattle.examples.specs.Together.{TogetherExamples};

// ---- longest

// The longest sheet has 463 bytes.
pub fn longest_met()
    ensures { LongestMet }
{}

// ---- reaches

// Sheets with a known reach.
pub fn reach_examples()
    ensures { ReachExamples }
{}

// ---- table

// The marked examples of the language.
pub fn examples()
    ensures { Examples }
{}

// No other answer fits an example.
pub fn one_answer()
    ensures { OneAnswer }
{}

// ---- together

// Open outputs that are never true together, and others that may be.
pub fn together_examples()
    ensures { TogetherExamples }
{}

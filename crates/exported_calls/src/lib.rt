// Lists of calls of the exported functions: each theorem the contract of a function that does nothing.
#![tactic(auto)]

ghost use Rattle.exported_calls.specs.Calls.{ExportedCalls, ExportedRefusals};
ghost use Rattle.exported_calls.specs.Queries.{ExportedTogether};

// ---- calls

// Every list of exported rounds and closings shows the book's answers.
pub fn exported_calls()
    ensures { ExportedCalls }
{}

// With every number but 0 all that was lent is what it was.
pub fn exported_refusals()
    ensures { ExportedRefusals }
{}

// ---- queries

// And every exported question shows the book's answer.
pub fn exported_together()
    ensures { ExportedTogether }
{}

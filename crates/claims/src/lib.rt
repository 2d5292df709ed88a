// The demands and what else is claimed of the whole: definitions and theorems, each theorem the contract of a function that does nothing.
#![tactic(auto)]

ghost use Rattle.claims.specs.Demands.{FirstDemand, UniqueTraces, SecondDemand, ThirdDemand};
ghost use Rattle.claims.specs.Further.{LongestSheet, VersionOne, VersionsAgree, LiveSet, OneVerdict, SomeVerdict, StaysBroken, OneBook, OneReach, SomeReach, EndNeedsNone, ReachBelow, WithinReach, ShortCompletion, MaskedRounds, StorageForgotten, StaysInOrder, StaysTidy};
ghost use Rattle.claims.specs.Queries.{TogetherAnswered, OneTogether, SomeTogether, SetOfOne, EmptySet, BrokenSets, FromOutputs};
ghost use Rattle.claims.specs.Share.{OneShare, OtherShares, HalfShares, HalvesBySixteen, ShareEnds, ShareExamples};

// ---- demands

// For every entry and all that it is handed one outcome is decided, and a refusal leaves what was lent or handed in.
pub fn first_demand()
    ensures { FirstDemand }
{}

// An accepted sheet has exactly one trace for every list of letters.
pub fn unique_traces()
    ensures { UniqueTraces }
{}

// What an accepted evaluation writes is the only trace.
pub fn second_demand()
    ensures { SecondDemand }
{}

// After an accepted preparation every list of rounds and closings is answered by the book.
pub fn third_demand()
    ensures { ThirdDemand }
{}

// ---- further

// A sheet that is read has at most 463 bytes.
pub fn longest_sheet()
    ensures { LongestSheet }
{}

// A sheet of version 1 has no equality.
pub fn version_one()
    ensures { VersionOne }
{}

// What is a sheet in version 1 is the same in version 2.
pub fn versions_agree()
    ensures { VersionsAgree }
{}

// A sheet has a set of just its live pairs.
pub fn live_set()
    ensures { LiveSet }
{}

// No two verdicts fit a round or a closing.
pub fn one_verdict()
    ensures { OneVerdict }
{}

// One verdict fits.
pub fn some_verdict()
    ensures { SomeVerdict }
{}

// Once broken, every later round is.
pub fn stays_broken()
    ensures { StaysBroken }
{}

// The book leaves nothing open.
pub fn one_book()
    ensures { OneBook }
{}

// No two numbers are the exact reach.
pub fn one_reach()
    ensures { OneReach }
{}

// Every sheet that is read has an exact reach.
pub fn some_reach()
    ensures { SomeReach }
{}

// A live pair with the end mark needs no further round.
pub fn end_needs_none()
    ensures { EndNeedsNone }
{}

// The exact reach is below the number of live pairs.
pub fn reach_below()
    ensures { ReachBelow }
{}

// Where rounds can be completed, they can within the exact reach.
pub fn within_reach()
    ensures { WithinReach }
{}

// And with fewer further rounds than there are live pairs.
pub fn short_completion()
    ensures { ShortCompletion }
{}

// Rounds by masks are rounds by the sets of the masks.
pub fn masked_rounds()
    ensures { MaskedRounds }
{}

// Nothing hangs on what the storage held before preparation.
pub fn storage_forgotten()
    ensures { StorageForgotten }
{}

// Rules 15 and 18 are never met after an accepted preparation.
pub fn stays_in_order()
    ensures { StaysInOrder }
{}

// And nothing is left in words that rounds don't write.
pub fn stays_tidy()
    ensures { StaysTidy }
{}

// ---- queries

// Questions about sets of outputs are answered by the book.
pub fn together_answered()
    ensures { TogetherAnswered }
{}

// No two verdicts fit a set of outputs.
pub fn one_together()
    ensures { OneTogether }
{}

// One verdict fits it.
pub fn some_together()
    ensures { SomeTogether }
{}

// A set of one output has the output's verdict.
pub fn set_of_one()
    ensures { SetOfOne }
{}

// The empty set is true or broken.
pub fn empty_set()
    ensures { EmptySet }
{}

// A set is broken exactly if the round is.
pub fn broken_sets()
    ensures { BrokenSets }
{}

// What the verdicts on its outputs say of a set.
pub fn from_outputs()
    ensures { FromOutputs }
{}

// ---- share

// The share is the nearest number, halves to the even one.
pub fn one_share()
    ensures { OneShare }
{}

// Where there is no half it is that of the first release.
pub fn other_shares()
    ensures { OtherShares }
{}

// Where there is one it differs if that was odd.
pub fn half_shares()
    ensures { HalfShares }
{}

// Only multiples of 16 rounds have a half.
pub fn halves_by_sixteen()
    ensures { HalvesBySixteen }
{}

// What the shares 0 and 1000 mean.
pub fn share_ends()
    ensures { ShareEnds }
{}

// One in 16 gives 62, three give 188.
pub fn share_examples()
    ensures { ShareExamples }
{}

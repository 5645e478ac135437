//! Laws of the meaning (docs/meaning.md, section 10). Each function does nothing: its contract is the law.

ghost use Rattle.sl_law_meaning.specs.laws.MeaningLaws.{SomeOutcome, AtMostOneOutcome, AnyOrder, RecordsOnce, KeptWinners, CoveredWinners, PlainOutcomes};
ghost use Rattle.sl_law_meaning.specs.laws.ColumnLaws.{TypedExpressions, TypedStages};
ghost use Rattle.sl_law_meaning.specs.laws.OneLaws.{OneStagesResult, OneSplitAward, OneGrowthAward, OneSeating};

/// A rulebook that passes the checks means some outcome on every election.
pub fn some_outcome()
    ensures { SomeOutcome }
{}

/// It means no two outcomes, up to the order of a table's steps and weights.
pub fn at_most_one_outcome()
    ensures { AtMostOneOutcome }
{}

/// Its stages yield exactly one result: their columns, or the first fault.
pub fn one_stages_result()
    ensures { OneStagesResult }
{}

/// Each scope of a split, and each of a growth, yields exactly one award.
pub fn one_award()
    ensures splits { OneSplitAward }
    ensures growths { OneGrowthAward }
{}

/// Each list yields exactly one choice between the winners whom it covers, whoever is eligible.
pub fn one_seating()
    ensures { OneSeating }
{}

/// The steps and the weights of a table may stand in any order.
pub fn any_order()
    ensures { AnyOrder }
{}

/// No two steps of a table are of the same stage, scope, entry and number, and no two weights of the same stage, scope and entry.
pub fn records_once()
    ensures { RecordsOnce }
{}

/// A column of a rulebook that passes the checks has a number for each entry of its shape, within the limits of its type, and 0 for a
/// pair of Land and party without a list.
pub fn typed_columns()
    ensures expressions { TypedExpressions }
    ensures stages { TypedStages }
{}

/// Where winners are kept, all winners of a list sit on it; where they are covered, as many as the list has seats, at most all.
pub fn placed_winners()
    ensures kept { KeptWinners }
    ensures covered { CoveredWinners }
{}

/// A rulebook without splits, growths, covering and vacant seats means the table that its columns make, and nothing else.
pub fn plain_outcomes()
    ensures { PlainOutcomes }
{}

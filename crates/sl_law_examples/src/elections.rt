//! Small elections, counted by the definitions alone (docs/meaning.md, section 11). Each function does nothing: its contract is the
//! outcome.

ghost use Rattle.sl_law_examples.specs.MeaningExamples.{TiesAndLots, MinimaAndGrowth, Refusals, LastClauses};
ghost use Rattle.sl_law_examples.specs.ScopeExamples.{SeveralScopes};
ghost use Rattle.sl_law_examples.specs.LawExample.{LawOf1956};

/// A tie, a lot that names half of it, a lot that decides, and equal quotients at one step.
pub fn ties_and_lots()
    ensures { TiesAndLots }
{}

/// A minimum above the share, minima that are too many, and a growth past a tie.
pub fn minima_and_growth()
    ensures { MinimaAndGrowth }
{}

/// A lot of parties, a lot that names none of them, and a Land without a list.
pub fn several_scopes()
    ensures { SeveralScopes }
{}

/// A majority that would be deprived, and elections in which nobody has votes.
pub fn refusals()
    ensures { Refusals }
{}

/// Winners whom their list covers, a tie among them with and without a lot, and a vacant seat.
pub fn last_clauses()
    ensures { LastClauses }
{}

/// A whole election under the law of 1956, with every step and weight.
pub fn law_of_1956()
    ensures { LawOf1956 }
{}

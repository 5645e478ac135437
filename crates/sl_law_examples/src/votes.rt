//! What more votes may cost by the statutes, and what winners do, over tables that their books mean. Each function does nothing: its contract is the example.

ghost use Rattle.sl_law_examples.specs.VotesThatCost.{VoteCostsByOverhang, VoteCostsByGrowth};
ghost use Rattle.sl_law_examples.specs.WinnersAbove.{NoMethodGives, FiveUnseated, FewerAreEnough};

/// Negative vote weight by the statutes of 1956, 1985 and 2008: with one vote more for its list in X, a party has four of five seats in place
/// of five of six. The list in X takes a seat from the party's list in Y, and has no more than its winners for it.
pub fn vote_costs_by_overhang()
    ensures { VoteCostsByOverhang }
{}

/// What of it is left by the statute of 2013: with one vote more for its list in X, a party has two of five seats in place of three of seven.
/// In X the other party has one seat less in the first distribution, so the house need not grow as far.
pub fn vote_costs_by_growth()
    ensures { VoteCostsByGrowth }
{}

/// By overhang the parties have no allocation: by the statutes of 1956, 1985 and 2008 parties with 1 and 11 votes have five of ten seats each,
/// since the first has five winners, and no method gives that.
pub fn no_method_gives()
    ensures { NoMethodGives }
{}

/// On the same returns, by the statute of 2023 the second party has all five seats, and the five winners have none.
pub fn five_unseated()
    ensures { FiveUnseated }
{}

/// Votes that are missing are enough in the count by the statutes of 2023, but fewer may be too: 95 of 100 votes lack eleven for the last of eleven
/// seats, and have it with one vote more, by which the other party falls below 5 in 100.
pub fn fewer_are_enough()
    ensures { FewerAreEnough }
{}

//! Laws of returns, over their definitions alone. Each function does nothing: its contract is the law.

ghost use Rattle.sl_returns.specs.Laws.{FirstIsTheFault, Limits, OthersAreTaken, ValidVotesAreTold};

/// The greatest number of digits in a number.
pub fn limits()
    ensures { Limits }
{}

/// Of records that make an election, the valid votes of a party are the sum of column a over the records of its lists.
pub fn valid_votes_are_told()
    ensures { ValidVotesAreTold }
{}

/// Of all records that are refused, each left out for those after it, the first is the one for which the returns are.
pub fn first_is_the_fault()
    ensures { FirstIsTheFault }
{}

/// The records of returns that are taken, in a file of their own, are none of them refused.
pub fn others_are_taken()
    ensures { OthersAreTaken }
{}

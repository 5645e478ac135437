//! What fails from one method to another, by other measures, and of votes that are rounded. Each function does nothing: its contract is the example.

ghost use Rattle.sl_law_examples.specs.Measures.{JustShares, WholePercents, LaterMethods, NoDivisor, MostLeastByLot, WebsterDeviates};

/// Seats that are just the shares: of six seats, 6, 4 and 2 votes have 3, 2 and 1 by every method; and an order of these three entries.
pub fn just_shares()
    ensures { JustShares }
{}

/// Votes in whole percent may have other seats than the votes: of two seats, 751 and 249 votes have 2 and 0 by Webster's method and by Hamilton's, and
/// 75 and 25 may have 1 and 1.
pub fn whole_percents()
    ensures { WholePercents }
{}

/// By a later method an entry may lose a seat, though it has more votes than others: of two seats, 5, 2 and 1 votes have 1, 1 and 0 by Webster's method
/// and 2, 0 and 0 by Jefferson's. And where first seats are by lot, it may lose one to fewer votes.
pub fn later_methods()
    ensures { LaterMethods }
{}

/// By Adams's, Dean's and Hill's methods a lot may leave 2 votes without a seat, and no divisor rounds them to 0.
pub fn no_divisor()
    ensures { NoDivisor }
{}

/// Where the fewest seats for a vote are as many as they can be there may be no allocation by Adams's method: of two seats, three equal entries have
/// 2, 0 and 0.
pub fn most_least_by_lot()
    ensures { MostLeastByLot }
{}

/// Webster's seats do not deviate least from the shares: of six seats, 6, 1, 1 and 1 votes have 3, 1, 1 and 1, and 4, 1, 1 and 0 deviate less in sum.
pub fn webster_deviates()
    ensures { WebsterDeviates }
{}

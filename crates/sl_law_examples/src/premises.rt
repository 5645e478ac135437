//! What fails where a premise of a law is missing. Each function does nothing: its contract is the example.

ghost use Rattle.sl_law_examples.specs.Failures.{MoreVotesByLot, FewerVotesByLot, FewerVotesByMinima, MoreVotesAmongOthers, EqualVotes, LargerHouseByTie, NamedTwice, NoVotes, LeastMostByTie, MajorityByMinima, WebsterMajority, HalfOfEven, HouseGrows};
ghost use Rattle.sl_law_examples.specs.Joined.{LessThanHalf};
ghost use Rattle.sl_law_examples.specs.Measures.{OtherField, PutInPlace};

/// Where first seats are infinite quotients, who alone gains votes may lose the seat by lot: 1 and 1 votes have 1 and 0 seats, and
/// 2 and 1 votes have 0 and 1. So monotonicity, in votes as in populations, asks for a quotient that is finite.
pub fn more_votes_by_lot()
    ensures { MoreVotesByLot }
{}

/// And more votes may have fewer seats: of one seat, 2 votes have none and 1 vote has it.
pub fn fewer_votes_by_lot()
    ensures { FewerVotesByLot }
{}

/// More votes have fewer seats where the minimum of the others is greater: 2 votes have one seat, and 1 vote two, its minimum.
pub fn fewer_votes_by_minima()
    ensures { FewerVotesByMinima }
{}

/// Where others gain votes too, more votes of the same sum may lose a seat: of four seats, 7, 1 and 4 votes have 3, 0 and 1 under
/// Webster's method, and 8, 2 and 2 votes have 2, 1 and 1.
pub fn more_votes_among_others()
    ensures { MoreVotesAmongOthers }
{}

/// Votes that do not change, or are no more than those of others, promise nothing, under each divisor method: of one seat, 1 and 1 votes
/// have 1 and 0, or 0 and 1. So the laws of votes and of majorities ask for more votes.
pub fn equal_votes()
    ensures { EqualVotes }
{}

/// A larger house may take a seat away by a tie, under each divisor method: of three equal entries the first has the only seat, and none
/// of two.
pub fn larger_house_by_tie()
    ensures { LargerHouseByTie }
{}

/// Entries that are named twice cannot be replaced, under each divisor method: of two seats, three equal entries have 0, 1 and 1; the
/// first entry twice and the other two have 0, 0, 1 and 1, or 1, 1, 0 and 0; but 1, 0 and 0 are no two seats.
pub fn named_twice()
    ensures { NamedTwice }
{}

/// With minima more than half of the votes may have no seat, under Jefferson's method as under each other: of one seat, 2 of 3 votes
/// have none, since it is the minimum of the others.
pub fn majority_by_minima()
    ensures { MajorityByMinima }
{}

/// Under Webster's method more than half of the votes may have fewer than half of the seats: 4 of 7 votes have 2 of 5 seats.
pub fn webster_majority()
    ensures { WebsterMajority }
{}

/// Of an even house more than half of the votes may have no more than half, under Jefferson's method too: 3 of 5 votes have 1 of 2 seats.
pub fn half_of_even()
    ensures { HalfOfEven }
{}

/// A minimum above what the first house gives makes the house grow: of one seat, 3 and 2 votes have 1 and 0; with a minimum of one for
/// the second entry the house is grown to two.
pub fn house_grows()
    ensures { HouseGrows }
{}

/// Without votes nothing is exact, and nothing deviates: the shares are 0 whatever the seats, and one seat for nobody is no allocation.
pub fn no_votes()
    ensures { NoVotes }
{}

/// Where the most seats for a vote are as few as they can be there may be no allocation by Jefferson's method, at a tie: of two seats, 2, 2 and 3
/// votes have 1, 1 and 0.
pub fn least_most_by_tie()
    ensures { LeastMostByTie }
{}

/// By Adams's, Dean's and Hill's methods 3 of 5 votes have 1 of 3 seats.
pub fn less_than_half()
    ensures { LessThanHalf }
{}

/// By lot the votes do not count, but who has any does: of one seat, 1 and 0 votes have 1 and 0, and 1 and 1 votes may have 0 and 1.
pub fn other_field()
    ensures { OtherField }
{}

/// Another allocation of a part may be put in its place: of two seats, three equal entries have 0, 1 and 1; the first two may share their seat the other
/// way, and then the three have 1, 0 and 1.
pub fn put_in_place()
    ensures { PutInPlace }
{}

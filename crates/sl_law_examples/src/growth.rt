//! What fails where a house grows. Each function does nothing: its contract is the example.

ghost use Rattle.sl_law_examples.specs.Growing.{MetByLot, TooFewSeats, WithoutVotes, HalfDecides, Bound2013};

/// Minima that some allocation meets may be missed in a larger house: of three equal entries a lot may give the last the only seat, and neither of
/// two. So the house that grows goes on to three.
pub fn met_by_lot()
    ensures { MetByLot }
{}

/// A house with fewer seats than the minima without votes has no allocation, and meets every minimum for want of one: with a seat more it does not.
pub fn too_few_seats()
    ensures { TooFewSeats }
{}

/// In the grown house an entry without votes has its minimum, and no votes give that: of 1 and 0 votes the second has the only seat.
pub fn without_votes()
    ensures { WithoutVotes }
{}

/// The house grows for the party with the least divisor, and not for that with the fewest votes for each seat of its minimum: with minima of 9 and 1,
/// 10 and 1 votes make the house grow to 10, which the first needs; the second needs 6.
pub fn half_decides()
    ensures { HalfDecides }
{}

/// The bound on growth needs the half seat for each party: in 2013 the house was larger than it is without them, for each of the parties. And it holds
/// of some party, not of each: with them it holds for the CSU, and not for the CDU.
pub fn bound_2013()
    ensures { Bound2013 }
{}

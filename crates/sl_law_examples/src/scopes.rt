//! Worked scopes, by the definitions alone. Each function does nothing: its contract is the result.

ghost use Rattle.sl_law_examples.specs.Examples.{WebsterThirtyTen, FirstSeats, HamiltonMajority, ThreeWinners};

/// Webster's method on weights 30 and 10: a tie, a lot, steps, and a growth past the tie.
pub fn webster_thirty_ten()
    ensures { WebsterThirtyTen }
{}

/// Infinite quotients under Adams, and minima under Jefferson.
pub fn first_seats()
    ensures { FirstSeats }
{}

/// Hamilton's method with and without preference for more than half of the weights.
pub fn hamilton_majority()
    ensures { HamiltonMajority }
{}

/// Two seats for three winners.
pub fn three_winners()
    ensures { ThreeWinners }
{}

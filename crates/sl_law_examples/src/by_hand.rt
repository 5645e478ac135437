//! Published results, checked by hand. Each function does nothing: its contract is the example.

ghost use Rattle.sl_law_examples.specs.ByHand.{Divided2025, Quoted2005, House2013, Covered};

/// The parties' seats of 2025, by the divisor 68100: each party's votes are between its products, so these seats are the only allocation.
pub fn divided_2025()
    ensures { Divided2025 }
{}

/// The parties' seats of 2005, by shares and remainders of 598 seats.
pub fn quoted_2005()
    ensures { Quoted2005 }
{}

/// The house of 2013: by the votes and what each party had to have, Webster's method grows a house of 598 seats to 631, and by the last party's
/// divisor the parties have 255, 193, 64, 63 and 56.
pub fn house_2013()
    ensures { House2013 }
{}

/// Four winners of a list of three seats, by the products of first votes and valid votes across.
pub fn covered()
    ensures { Covered }
{}

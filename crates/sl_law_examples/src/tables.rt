//! Tables by the statutes in which a sharper statement fails, or a premise is met. Each function does nothing: its contract is the
//! example.

ghost use Rattle.sl_law_examples.specs.Tables.{WinnersAmongLists, ListsApart, BestByOneMeasure, HalfOfAll, HalfOfTwo, FourAreEnough, NoSeatGained, MoreIndependents};

/// By the statute of 2013 the lists of a party may have no allocation by their votes alone: 6 and 1 votes have two and one of three seats, since the second
/// list has a winner.
pub fn winners_among_lists()
    ensures { WinnersAmongLists }
{}

/// By the statute of 2023 the lists of all parties together may have no allocation: the lists with 1 and 6 votes of one party and 4 of another have 0, 3
/// and 1 seats. With a vote more for the first it wins a seat, and the second loses it.
pub fn lists_apart()
    ensures { ListsApart }
{}

/// By the statute of 2023 the seats of the parties are best by Webster's measure and not by each: 95 and 5 votes have ten seats and one, and by
/// Jefferson's measure all eleven for the first are less unequal.
pub fn best_by_one_measure()
    ensures { BestByOneMeasure }
{}

/// By the statute of 2023 more than half of the votes may have no more than half of all seats: 7 of 11 votes have two of the three seats of the lists,
/// and an independent has the fourth. Of two winners of the other party, which has one seat, the one with the larger share sits.
pub fn half_of_all()
    ensures { HalfOfAll }
{}

/// So it is by the statute of 2013: 3 of 4 votes have the only seat of the lists, and an independent has the other seat of two.
pub fn half_of_two()
    ensures { HalfOfTwo }
{}

/// On the returns of `half_of_all`, four votes more are the least that win that other party the third seat among the parties, and it has it in the count.
pub fn four_are_enough()
    ensures { FourAreEnough }
{}

/// By the older statutes votes that a party lacks for one more seat among the parties may give it none in the table. By those of 1956, 1985 and 2008 a
/// party with five winners has five seats with 1 vote and with 3, against 11 votes of the other. By that of 2013 the house may grow less, to
/// three seats in place of four, and the party has two of each.
pub fn no_seat_gained()
    ensures { NoSeatGained }
{}

/// By the statute of 2023 the total is more than the house where more winners are independent than it has seats: two for a house of one.
pub fn more_independents()
    ensures { MoreIndependents }
{}

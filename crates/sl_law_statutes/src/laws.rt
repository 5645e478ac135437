//! Laws of the statutes, of their meaning (docs/meaning.md). Each function does nothing: its contract is the law.

ghost use Rattle.sl_law_statutes.specs.Statutes.{LastClauses, AreWellFormed, WinnersUpTo2013, ListsUpTo2008, WinnersOf2013};
ghost use Rattle.sl_law_statutes.specs.Houses.{OverhangOf1956, OverhangOf1985, OverhangOf2008, TotalOf2023, TotalOf2023Order};
ghost use Rattle.sl_law_statutes.specs.Grown.{HouseOf2013, PartiesOf2013};
ghost use Rattle.sl_law_statutes.specs.Unseated.{UnseatedOf2023};
ghost use Rattle.sl_law_statutes.specs.Best.{BestOf2023};
ghost use Rattle.sl_law_statutes.specs.Parties.{PartiesOf2023, VotesOf2023};
ghost use Rattle.sl_law_statutes.specs.Overhang.{PartiesBefore2013};
ghost use Rattle.sl_law_statutes.specs.Lists.{ListsOf2013, ListsOf2023, ListVotesOf2023};
ghost use Rattle.sl_law_statutes.specs.Majorities.{MajorityBefore2013, MajorityOf2013, MajorityOf2023};

/// The statutes up to 2013 keep the winners, and those of 2023 cover them.
pub fn last_clauses()
    ensures { LastClauses }
{}

/// Each statute is a well-formed rulebook.
pub fn are_well_formed()
    ensures { AreWellFormed }
{}

/// By the statutes up to 2013 each constituency winner sits, on a list or as a single.
pub fn winners_up_to_2013()
    ensures { WinnersUpTo2013 }
{}

/// By the statutes of 1956, 1985 and 2008 each list has the larger of its base and its winners, who all sit on it.
pub fn lists_up_to_2008()
    ensures { ListsUpTo2008 }
{}

/// By the statute of 2013 no list of the table has fewer seats than its winners.
pub fn winners_of_2013()
    ensures { WinnersOf2013 }
{}

/// By the statute of 2013 the house grows, from the pool on, to the least one whose allocations all have room for what each party must have;
/// no list has overhang, and the total is that house with the winners outside, so at least the house.
pub fn house_of_2013()
    ensures { HouseOf2013 }
{}

/// By the statute of 2013 any parties with votes have among them an allocation, by Webster's method without minima, of the seats that they
/// have.
pub fn parties_of_2013()
    ensures { PartiesOf2013 }
{}

/// By the statute of 1956 the lists share the house without the winners outside. The total is the house with the overhang, as long as no more
/// winners are outside than the house has seats.
pub fn overhang_of_1956()
    ensures { OverhangOf1956 }
{}

/// By the statute of 1985 the lists share the house without the winners outside. The total is the house with the overhang, as long as no more
/// winners are outside than the house has seats.
pub fn overhang_of_1985()
    ensures { OverhangOf1985 }
{}

/// By the statute of 2008 the lists share the house without the winners outside. The total is the house with the overhang, as long as no more
/// winners are outside than the house has seats.
pub fn overhang_of_2008()
    ensures { OverhangOf2008 }
{}

/// By the statute of 2023 the lists share the house without the independents. The total is the house, as long as there are no more
/// independents than seats.
pub fn total_of_2023()
    ensures { TotalOf2023 }
{}

/// By the statute of 2023 as ordered in 2024 the lists share the house without the independents. The total is the house, as long as there
/// are no more independents than seats.
pub fn total_of_2023_order()
    ensures { TotalOf2023Order }
{}

/// By the statutes of 2023, with the order of 2024 or without it, the parties that take part have an allocation by Webster's method of the
/// house without the independents.
pub fn parties_of_2023()
    ensures { PartiesOf2023 }
{}

/// By the statutes of 2023, with the order of 2024 or without it, more counted votes for one of its lists, and all else equal, cost a party
/// no seat.
pub fn votes_of_2023()
    ensures { VotesOf2023 }
{}

/// By the statutes of 2023, with the order of 2024 or without it, a party with more than half of the counted votes has more than half of the
/// seats that the parties share, where there are any.
pub fn majority_of_2023()
    ensures { MajorityOf2023 }
{}

/// By the statutes of 2023, with the order of 2024 or without it, the lists of each party have in the table an allocation by Webster's method
/// of the seats that the party has.
pub fn lists_of_2023()
    ensures { ListsOf2023 }
{}

/// By the statutes of 2023, with the order of 2024 or without it, more counted votes for a list, and all else equal, cost the list itself no
/// seat.
pub fn list_votes_of_2023()
    ensures { ListVotesOf2023 }
{}

/// More than half of the counted votes has before any overhang at least half of the seats that the parties share by the statute of 1956, and
/// more than half of them by those of 1985 and 2008.
pub fn majority_before_2013()
    ensures { MajorityBefore2013 }
{}

/// By the statutes of 2023, with the order of 2024 or without it, as many winners stay without a seat as the overhang of the same base would
/// be, and with them those of parties without a list.
pub fn unseated_of_2023()
    ensures { UnseatedOf2023 }
{}

/// By the statutes of 2023, with the order of 2024 or without it, the seats for each vote deviate, from party to party, as little as they can.
pub fn best_of_2023()
    ensures { BestOf2023 }
{}

/// By the statute of 2013 a party with more than half of the counted votes has more than half of the seats that the parties have, where there
/// are any.
pub fn majority_of_2013()
    ensures { MajorityOf2013 }
{}

/// By the statute of 2013 the lists of each party have in the table an allocation by Webster's method of the seats that the party has, with
/// their winners as minima.
pub fn lists_of_2013()
    ensures { ListsOf2013 }
{}

/// By the statutes of 1956, 1985 and 2008 the parties have before overhang an allocation by the method of the statute, and in the table each
/// has its overhang beside it: who has overhang stands above the allocation.
pub fn parties_before_2013()
    ensures { PartiesBefore2013 }
{}

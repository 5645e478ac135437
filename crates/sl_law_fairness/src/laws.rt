//! Laws of fairness: here those of allocations, and in `books` those of rulebooks. Each function does nothing: its contract is the law.

pub mod books;

ghost use Rattle.sl_law_fairness.specs.Votes.{PopulationMonotone, SameFactor, AbsolutelyMonotone, VotesMonotone, VotesOrdered, FirstSeatsByLot};
ghost use Rattle.sl_law_fairness.specs.Houses.{HouseMonotone, LargerHouse};
ghost use Rattle.sl_law_fairness.specs.Parts.{Coherent, PartsReplaced};
ghost use Rattle.sl_law_fairness.specs.Quota.{JeffersonLowerQuota, AdamsUpperQuota, HamiltonInQuota};
ghost use Rattle.sl_law_fairness.specs.Majorities.{JeffersonMajority, HamiltonMajority};
ghost use Rattle.sl_law_fairness.specs.Growths.{GrownHouseMeets, GrowthStays, GrownByVotes, LargerHouseMeets};
ghost use Rattle.sl_law_fairness.specs.Joining.{JeffersonJoins, AdamsJoins, WebsterJoins};
ghost use Rattle.sl_law_fairness.specs.Impossible.{Impossibility, ImpossibilityAlike};
ghost use Rattle.sl_law_fairness.specs.ByDivisor.{WebsterByDivisor, JeffersonByDivisor, AdamsByDivisor, DeanByDivisor, HillByDivisor, DivisorBetween, SeparatedIsOnly};
ghost use Rattle.sl_law_fairness.specs.NearQuota.{WebsterNearQuota, WebsterDeviation};
ghost use Rattle.sl_law_fairness.specs.Principles.{Balanced, Exact, Homogeneous, Anonymous, HamiltonBalanced, HamiltonExact, HamiltonHomogeneous, HamiltonAnonymous};
ghost use Rattle.sl_law_fairness.specs.Huntington.{HuntingtonsTests};
ghost use Rattle.sl_law_fairness.specs.Optimal.{JeffersonLeastMost, AdamsMostLeast, WebsterLeastDeviations};
ghost use Rattle.sl_law_fairness.specs.MethodOrder.{FavoursLarger};
ghost use Rattle.sl_law_fairness.specs.Hamilton.{HamiltonVotes, HamiltonOrdered, HamiltonLeastDeviation, LeastDeviationIsHamilton};
ghost use Rattle.sl_law_fairness.specs.ClosedHouse.{ClosedHouse, LeastDivisorDecides, GrowthBound};

/// Population monotonicity: whose votes grow by the larger factor does not lose a seat while the other gets one more
/// (Balinski and Young, Fair Representation, appendix A).
pub fn population_monotone()
    ensures { PopulationMonotone }
{}

/// Of two entries whose votes grow by the same factor one loses a seat while the other gets one more by a tie alone, and one seat alone
/// (Balinski and Young, Fair Representation, appendix A).
pub fn same_factor()
    ensures { SameFactor }
{}

/// The absolute form: who gains votes does not lose a seat while another, who gained none, gets one more
/// (Balinski and Young, Fair Representation, appendix A).
pub fn absolutely_monotone()
    ensures { AbsolutelyMonotone }
{}

/// Who gains votes while no other does has no fewer seats in the same house (Balinski and Young, Fair Representation, appendix A).
pub fn votes_monotone()
    ensures { VotesMonotone }
{}

/// More votes have no fewer seats (Balinski and Young, Fair Representation, appendix A).
pub fn votes_ordered()
    ensures { VotesOrdered }
{}

/// Where an entry without a seat has an infinite quotient, a lot decides and not the votes: whatever the votes of the same entries,
/// the allocations are the ways to give first seats beyond the minima (Balinski and Young, Fair Representation, appendix A).
pub fn first_seats_by_lot()
    ensures { FirstSeatsByLot }
{}

/// House monotonicity: each allocation becomes one of a seat more by one more seat for one entry
/// (Balinski and Young, Fair Representation, appendix A).
pub fn house_monotone()
    ensures { HouseMonotone }
{}

/// Between any allocations of two houses: who has fewer seats in the larger one has one fewer, by a tie in both
/// (Balinski and Young, Fair Representation, appendix A).
pub fn larger_house()
    ensures { LargerHouse }
{}

/// Coherence, or uniformity: any entries of an allocation have among them an allocation of the seats that they have
/// (Balinski and Young, Fair Representation, appendix A).
pub fn coherent()
    ensures { Coherent }
{}

/// Coherence, the other half: another allocation of those seats among the entries may be put in place of theirs
/// (Balinski and Young, Fair Representation, appendix A).
pub fn parts_replaced()
    ensures { PartsReplaced }
{}

/// Equal votes have seats that are at most one apart, by each method (Balinski and Young, Fair Representation, appendix A).
pub fn balanced()
    ensures { Balanced }
{}

/// Exactness: seats that are just the shares are the only allocation, by each divisor method
/// (Pukelsheim, Proportional Representation, chapter 4).
pub fn exact()
    ensures { Exact }
{}

/// Homogeneity: votes that are all multiplied by a number have the same allocations (Pukelsheim, Proportional Representation, chapter 4).
pub fn homogeneous()
    ensures { Homogeneous }
{}

/// Anonymity: entries in another order have their seats in that order (Pukelsheim, Proportional Representation, chapter 4).
pub fn anonymous()
    ensures { Anonymous }
{}

/// Under Hamilton's method, with preference for a majority or without, equal votes have seats that are at most one apart
/// (docs/methods.md, section 3).
pub fn hamilton_balanced()
    ensures { HamiltonBalanced }
{}

/// Under Hamilton's method seats that are just the shares are the only allocation (docs/methods.md, section 3).
pub fn hamilton_exact()
    ensures { HamiltonExact }
{}

/// Under Hamilton's method votes that are all multiplied by a number have the same allocations (docs/methods.md, section 3).
pub fn hamilton_homogeneous()
    ensures { HamiltonHomogeneous }
{}

/// Under Hamilton's method entries in another order have their seats in that order (docs/methods.md, section 3).
pub fn hamilton_anonymous()
    ensures { HamiltonAnonymous }
{}

/// Jefferson's method gives no entry fewer seats than its share rounded down
/// (Balinski and Young, Fair Representation, appendix A).
pub fn jefferson_lower_quota()
    ensures { JeffersonLowerQuota }
{}

/// Adams's method gives no entry more seats than its share rounded up
/// (Balinski and Young, Fair Representation, appendix A).
pub fn adams_upper_quota()
    ensures { AdamsUpperQuota }
{}

/// Hamilton's method stays within quota: it gives each entry its share rounded down or up, with preference for a majority too
/// (Balinski and Young, Fair Representation, appendix A).
pub fn hamilton_in_quota()
    ensures { HamiltonInQuota }
{}

/// Under Webster's method no seat moved from one entry to another brings both nearer to their shares
/// (Balinski and Young, Fair Representation, appendix A).
pub fn webster_near_quota()
    ensures { WebsterNearQuota }
{}

/// Under Webster's method, of n entries with votes, the seats of one are no farther from its share than half a seat and n - 2 halves of its part
/// of the votes (Balinski and Young, Fair Representation, appendix A).
pub fn webster_deviation()
    ensures { WebsterDeviation }
{}

/// The impossibility theorem: no apportionment stays within quota, keeps the order of votes and is population monotone
/// (Balinski and Young, Fair Representation, appendix A).
pub fn impossibility()
    ensures { Impossibility }
{}

/// And none stays within quota and is population monotone that treats entries alike: two that exchange their votes exchange their seats
/// (Balinski and Young, Fair Representation, appendix A).
pub fn impossibility_alike()
    ensures { ImpossibilityAlike }
{}

/// Under Jefferson's method more than half of the votes has at least half of the seats, and more than half of an odd house
/// (Balinski and Young, Fair Representation, appendix A).
pub fn jefferson_majority()
    ensures { JeffersonMajority }
{}

/// Under Hamilton's method with preference for a majority, more than half of the votes has more than half of the seats
/// (docs/methods.md, section 3).
pub fn hamilton_majority()
    ensures { HamiltonMajority }
{}

/// Under Jefferson's method two entries that join lose no seat, or one by a tie
/// (Balinski and Young, Fair Representation, appendix A).
pub fn jefferson_joins()
    ensures { JeffersonJoins }
{}

/// Under Adams's method two entries that join gain no seat, or one by a tie
/// (Balinski and Young, Fair Representation, appendix A).
pub fn adams_joins()
    ensures { AdamsJoins }
{}

/// Under Webster's method two entries that join gain or lose no more than one seat (Balinski and Young, Fair Representation, appendix A).
pub fn webster_joins()
    ensures { WebsterJoins }
{}

/// The five methods in the order Adams, Dean, Hill, Webster, Jefferson: a later one gives no seat from more votes to fewer
/// (Balinski and Young, Fair Representation, appendix A).
pub fn favours_larger()
    ensures { FavoursLarger }
{}

/// The allocations by Webster's method are what rounding by one divisor gives, a half either way, with the minimum where it is more
/// (Balinski and Young, Fair Representation, appendix A).
pub fn webster_by_divisor()
    ensures { WebsterByDivisor }
{}

/// The allocations by Jefferson's method are what rounding down by one divisor gives, with the minimum where it is more
/// (Balinski and Young, Fair Representation, appendix A).
pub fn jefferson_by_divisor()
    ensures { JeffersonByDivisor }
{}

/// The allocations by Adams's method in which each entry with votes has a seat are what rounding up by one divisor gives, with the minimum
/// where it is more (Balinski and Young, Fair Representation, appendix A).
pub fn adams_by_divisor()
    ensures { AdamsByDivisor }
{}

/// The allocations by Dean's method in which each entry with votes has a seat are what rounding by one divisor gives at the harmonic means of
/// the numbers, with the minimum where it is more (Balinski and Young, Fair Representation, appendix A).
pub fn dean_by_divisor()
    ensures { DeanByDivisor }
{}

/// The allocations by Hill's method in which each entry with votes has a seat are what rounding by one divisor gives at the geometric means of
/// the numbers, with the minimum where it is more (Balinski and Young, Fair Representation, appendix A).
pub fn hill_by_divisor()
    ensures { HillByDivisor }
{}

/// By each of the five methods the quotient for a next seat, with a seats held, is the votes by a number between a and a + 1
/// (Balinski and Young, Fair Representation, appendix A).
pub fn divisor_between()
    ensures { DivisorBetween }
{}

/// A check by hand: where one number is above each next claim and below each last one beyond a minimum, the seats are the only allocation
/// (docs/by-hand.md).
pub fn separated_is_only()
    ensures { SeparatedIsOnly }
{}

/// Huntington's tests: an allocation by a divisor method is what no seat moved between two entries makes less unequal, by the method's measure
/// of the inequality of two (Balinski and Young, Fair Representation, appendix A).
pub fn huntingtons_tests()
    ensures { HuntingtonsTests }
{}

/// Jefferson's method makes the most seats for a vote as few as they can be (Balinski and Young, Fair Representation, appendix A).
pub fn jefferson_least_most()
    ensures { JeffersonLeastMost }
{}

/// Adams's method makes the fewest seats for a vote as many as they can be (Balinski and Young, Fair Representation, appendix A).
pub fn adams_most_least()
    ensures { AdamsMostLeast }
{}

/// The allocations by Webster's method are those in which, for all votes together, the squares of what the part of a vote in the seats deviates
/// from the average are least (Sainte-Laguë, 1910).
pub fn webster_least_deviations()
    ensures { WebsterLeastDeviations }
{}

/// Hamilton's method without preference makes the sum of what the seats deviate from the shares as small as it can be.
pub fn hamilton_least_deviation()
    ensures { HamiltonLeastDeviation }
{}

/// And where there are votes, seats of which no others deviate less in sum are an allocation by Hamilton's method without preference.
pub fn least_deviation_is_hamilton()
    ensures { LeastDeviationIsHamilton }
{}

/// Under Hamilton's method who gains votes while all others keep theirs has no fewer seats in the same house
/// (docs/methods.md, section 3).
pub fn hamilton_votes()
    ensures { HamiltonVotes }
{}

/// Under Hamilton's method more votes have no fewer seats (docs/methods.md, section 3).
pub fn hamilton_ordered()
    ensures { HamiltonOrdered }
{}

/// A house that is grown to meets every minimum in each of its allocations, and no smaller house does
/// (docs/methods.md, section 5).
pub fn grown_house_meets()
    ensures { GrownHouseMeets }
{}

/// Every house larger than one that meets each minimum meets them too (docs/methods.md, section 5).
pub fn larger_house_meets()
    ensures { LargerHouseMeets }
{}

/// A first house whose allocations all meet the minima does not grow (docs/methods.md, section 5).
pub fn growth_stays()
    ensures { GrowthStays }
{}

/// In a house that is grown to, any entries with votes have among them an allocation without minima of the seats that they have
/// (docs/methods.md, section 5).
pub fn grown_by_votes()
    ensures { GrownByVotes }
{}

/// The house that Webster's method grows to is the greatest of the first house, of the minima outside the field, and of these with what
/// an entry needs (docs/methods.md, section 5).
pub fn closed_house()
    ensures { ClosedHouse }
{}

/// The party with the least divisor, its votes over its minimum less a half, is that for which the house grows (docs/methods.md, section 5).
pub fn least_divisor_decides()
    ensures { LeastDivisorDecides }
{}

/// A house that Webster's method grows to has no more seats for the field than some entry's minimum, less a half, over its part of the
/// votes, and half a seat for each entry with votes (docs/methods.md, section 5).
pub fn growth_bound()
    ensures { GrowthBound }
{}

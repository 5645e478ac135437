//! Laws of rulebooks, of their meaning (docs/meaning.md). Each function does nothing: its contract is the law.

ghost use Rattle.sl_law_fairness.specs.Winners.{KeepSeatsAll, KeepTotal, CoverKeepsBase, CoverPlaces, CoverSeatsLargest};
ghost use Rattle.sl_law_fairness.specs.Allocated.{SplitsAllocate, SplitsMeetTheMinima, GrowthsAllocate};
ghost use Rattle.sl_law_fairness.specs.Amounts.{SplitsGiveTheAmount, GrowthsGiveTheAmount, MajorityKept, GrownMajorityKept};

/// Where winners are kept, each of them sits, on a list or as a single.
pub fn keep_seats_all()
    ensures { KeepSeatsAll }
{}

/// Where winners are kept, each list has the larger of its base and its winners, and the total is the base with the overhang and the
/// winners without an eligible list.
pub fn keep_total()
    ensures { KeepTotal }
{}

/// Where winners are covered, each list has its base and no more, and the total is the base with the winners without a party.
pub fn cover_keeps_base()
    ensures { CoverKeepsBase }
{}

/// Where winners are covered, a winner without a party sits as a single, one whose party has no eligible list there does not sit, and each
/// other sits on the list or not at all.
pub fn cover_places()
    ensures { CoverPlaces }
{}

/// Where winners are covered, of two winners of one list of whom only one sits, that one has at least the share of first votes of the other.
pub fn cover_seats_largest()
    ensures { CoverSeatsLargest }
{}

/// A split that yields a column distributes in each of its scopes just the amount of the scope.
pub fn splits_give_the_amount()
    ensures { SplitsGiveTheAmount }
{}

/// A growth that yields a column distributes at least its amount, and no more than the cap.
pub fn growths_give_the_amount()
    ensures { GrowthsGiveTheAmount }
{}

/// A split without minima gives in each of its scopes an allocation by its method.
pub fn splits_allocate()
    ensures { SplitsAllocate }
{}

/// A split with minima gives in each of its scopes an allocation by its method with the minima of the entries.
pub fn splits_meet_the_minima()
    ensures { SplitsMeetTheMinima }
{}

/// A growth gives an allocation of the least house that meets the minima in each of its allocations.
pub fn growths_allocate()
    ensures { GrowthsAllocate }
{}

/// Where a majority refuses, more than half of the votes of a scope has more than half of its seats, in splits and in growths that come
/// to a column.
pub fn majority_kept()
    ensures splits { MajorityKept }
    ensures growths { GrownMajorityKept }
{}

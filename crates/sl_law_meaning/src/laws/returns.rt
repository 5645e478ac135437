//! Laws of the returns and the facts read off them (docs/meaning.md, section 1). Each function does nothing: its contract is the law.

ghost use Rattle.sl_law_meaning.specs.laws.ReturnsLaws.{ListsAreNamed, EligibleParties, FactsOfLists, FactsOfLands};

/// Each list is of a Land and a party of the election.
pub fn lists_are_named()
    ensures { ListsAreNamed }
{}

/// A party is eligible exactly where it meets one of the conditions.
pub fn eligible_parties()
    ensures { EligibleParties }
{}

/// Counted votes and winners are those of lists of eligible parties, and 0 for every other pair of Land and party.
pub fn facts_of_lists()
    ensures { FactsOfLists }
{}

/// In each Land the winners on lists and the outside winners are together all its winners; those without a party are among the outside ones.
pub fn facts_of_lands()
    ensures { FactsOfLands }
{}

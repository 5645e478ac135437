//! What these plans achieve. Each function does nothing: its contract is the law.

ghost use Rattle.sl_compile_pieces.specs.facts.Laws.{EligibleAreTold, FactsAreTold};

/// The column of the eligible parties.
pub fn eligible_are_told()
    ensures { EligibleAreTold }
{}

/// The column of each fact.
pub fn facts_are_told()
    ensures { FactsAreTold }
{}

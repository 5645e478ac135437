//! Outcomes of elections. Each function does nothing: its contract is the outcome.

ghost use Rattle.sl_law_certificate_examples.specs.Bundestag.{Bundestag2013, Bundestag2025};
ghost use Rattle.sl_law_certificate_examples.specs.Small.{OrderDiffers, TiedScope};

/// The table of 2013 by the statute of that year, on the returns in examples/elections.
pub fn bundestag_2013()
    ensures { Bundestag2013 }
{}

/// The table of 2025 by the statute of 2023, on the returns in examples/elections.
pub fn bundestag_2025()
    ensures { Bundestag2025 }
{}

/// By the order of 2024 a party with three winners takes part, and by the statute of 2023 it does not.
pub fn order_differs()
    ensures { OrderDiffers }
{}

/// A tie among the lists of one party, which a certificate shows without a word on those of the next.
pub fn tied_scope()
    ensures { TiedScope }
{}

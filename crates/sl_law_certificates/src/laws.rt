//! Laws of certificates. Each function does nothing: its contract is the law.

ghost use Rattle.sl_law_certificates.specs.Laws.{CutIsTested, TopsHaveCuts, AnyCutServes, ClearIsOnly, HamiltonIsOnly, DivisorIsCut};
ghost use Rattle.sl_law_certificates.specs.Laws.{ChoicesAreShown, SplitsAreShown, GrowthsAreShown};
ghost use Rattle.sl_law_certificates.specs.Laws.{ShownIsMeant, AcceptedIsMeant, MeantIsShown, ShownIsOne};

/// A cut is a rank that every seat won reaches and that no waiting claim exceeds.
pub fn cut_is_tested()
    ensures { CutIsTested }
{}

/// Seats have a cut exactly where no waiting claim ranks higher than a seat won.
pub fn tops_have_cuts()
    ensures { TopsHaveCuts }
{}

/// Whichever cut is told with the seats, it shows the same.
pub fn any_cut_serves()
    ensures { AnyCutServes }
{}

/// Seats with a cut on which there is no tie are the only ones that have a cut.
pub fn clear_is_only()
    ensures { ClearIsOnly }
{}

/// By largest remainders they are then the only allocation.
pub fn hamilton_is_only()
    ensures { HamiltonIsOnly }
{}

/// A divisor between the claims of an allocation, as a report has it, is a cut of it.
pub fn divisor_is_cut()
    ensures { DivisorIsCut }
{}

/// What seats with a cut show is the choice that the lot makes, and something told shows that choice.
pub fn choices_are_shown()
    ensures { ChoicesAreShown }
{}

/// What is shown of a split is its award, and something told shows it.
pub fn splits_are_shown()
    ensures { SplitsAreShown }
{}

/// What is shown of a growth is its award, and something told shows it.
pub fn growths_are_shown()
    ensures { GrowthsAreShown }
{}

/// The outcome that a certificate shows is the one that the book means.
pub fn shown_is_meant()
    ensures { ShownIsMeant }
{}

/// A table that is shown is the book's, without its steps and weights.
pub fn accepted_is_meant()
    ensures { AcceptedIsMeant }
{}

/// Each outcome that a book means has a certificate, up to the order of a table's steps and weights.
pub fn meant_is_shown()
    ensures { MeantIsShown }
{}

/// Two certificates show the same, up to the order of a table's steps and weights.
pub fn shown_is_one()
    ensures { ShownIsOne }
{}

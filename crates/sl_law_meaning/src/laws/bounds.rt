//! The law of the bounds. The function does nothing: its contract is the law.

ghost use Rattle.sl_law_meaning.specs.laws.EqualBounds.{EqualBounds};

/// The bounds of an allocation are equal exactly where there is another allocation.
pub fn equal_bounds()
    ensures { EqualBounds }
{}

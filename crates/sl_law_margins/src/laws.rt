//! The laws of votes missing and of divisors. Each function does nothing: its contract is the law.

ghost use Rattle.sl_law_margins.specs.Laws.{DivisorsBetween, EnoughStaysEnough};

/// By Adams's, Webster's or Jefferson's method, claims that are apart have a decimal number of twelve places between them: `divisor` answers
/// nothing only at a tie, or where the seats are no allocation.
pub fn divisors_between()
    ensures { DivisorsBetween }
{}

/// Where so many further votes are enough for one more seat, more are too (docs/margins.md, section 1).
pub fn enough_stays_enough()
    ensures { EnoughStaysEnough }
{}

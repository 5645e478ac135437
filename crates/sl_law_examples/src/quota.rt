//! Allocations outside quota. Each function does nothing: its contract is the example.

ghost use Rattle.sl_law_examples.specs.Failures.{WebsterBelow, WebsterAbove, JeffersonAbove, MinimaOutside};
ghost use Rattle.sl_law_examples.specs.Joined.{BelowQuota, AboveQuota};
ghost use Rattle.sl_law_examples.specs.Measures.{NotNear};

/// Webster's method gives fewer seats than the share rounded down: 6 of 9 votes have 3 of 6 seats.
pub fn webster_below()
    ensures { WebsterBelow }
{}

/// Webster's method gives more seats than the share rounded up: 6 of 9 votes have all of 3 seats.
pub fn webster_above()
    ensures { WebsterAbove }
{}

/// Jefferson's method gives more seats than the share rounded up: 4 of 6 votes have all of 3 seats.
pub fn jefferson_above()
    ensures { JeffersonAbove }
{}

/// With minima no method stays within quota, neither below nor above: 1 of 2 votes has no seat of two, and the other has both.
pub fn minima_outside()
    ensures { MinimaOutside }
{}

/// Adams's, Dean's and Hill's methods give fewer seats than the share rounded down: 4 of 6 votes have 1 of 3 seats.
pub fn below_quota()
    ensures { BelowQuota }
{}

/// Dean's and Hill's methods give more seats than the share rounded up: 25 of 55 votes have 6 of 11 seats.
pub fn above_quota()
    ensures { AboveQuota }
{}

/// By each method but Webster's a seat that goes over may bring both entries nearer to their shares: 4 and 1 votes have 1 and 1 of two seats by Adams's,
/// Dean's and Hill's, whose shares are 1.6 and 0.4, and 3 and 0 of three by Jefferson's, whose shares are 2.4 and 0.6.
pub fn not_near()
    ensures { NotNear }
{}

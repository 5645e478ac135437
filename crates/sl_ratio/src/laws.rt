//! Laws of the definitions. Each function does nothing: its contract is the law.

ghost use Rattle.sl_ratio.specs.Laws.{FiveMethods, InfiniteQuotients, QuotientsChain, EntryOrder, EveryDivisorBetween, Limits};

/// The quotients of each method fall strictly with the seats held, rise strictly with the weight where they are finite, and fit a
/// ratio (Balinski and Young, Fair Representation).
pub fn five_methods()
    ensures { FiveMethods }
{}

/// Two infinite quotients are equal, and each is greater than any other.
pub fn infinite_quotients()
    ensures { InfiniteQuotients }
{}

/// The comparison of quotients is transitive.
pub fn quotients_chain()
    ensures { QuotientsChain }
{}

/// Entries are ordered by quotient, then the smaller index as the greater, then by the parts of the ratio.
pub fn entry_order()
    ensures { EntryOrder }
{}

/// Every divisor strictly between the bounds of an allocation rounds each weight to its seats: up under Adams, to the nearest number
/// under Webster, where no half occurs, and down under Jefferson.
pub fn every_divisor_between()
    ensures { EveryDivisorBetween }
{}

/// The limits of seats, weights, numbers and names, and of the parts of a ratio.
pub fn limits()
    ensures { Limits }
{}

//! Laws of the definitions: here those of the methods (docs/methods.md) and of the limits, and in each module those of one subject.
//! Each function does nothing: its contract is the law.

pub mod book;
pub mod bounds;
pub mod meaning;
pub mod returns;

ghost use Rattle.sl_law_meaning.specs.laws.MethodLaws.{EmptyFields, DivisorAllocations, HamiltonAllocations, Coverings, FullCoverings, Growths};
ghost use Rattle.sl_law_meaning.specs.laws.LimitLaws.{Limits};
ghost use Rattle.sl_law_meaning.specs.laws.Awards.{Draws, Batches, DivisorLadders, HamiltonLadders, CoveringLadders, GrowthBatches};
ghost use Rattle.sl_law_meaning.specs.laws.Walks.{Walks};

/// The value of each limit of rulebooks and returns (docs/limits.md).
pub fn limits()
    ensures { Limits }
{}

/// A field is empty exactly where its weights sum to 0 (docs/methods.md, section 2).
pub fn empty_fields()
    ensures { EmptyFields }
{}

/// When a divisor method has an allocation; then "the allocation" and "a tie" are well-defined, and each lot has one choice
/// (docs/methods.md, sections 2 and 4).
pub fn divisor_allocations()
    ensures { DivisorAllocations }
{}

/// When Hamilton's method has an allocation; then "the allocation" and "a tie" are well-defined, and each lot has one choice
/// (docs/methods.md, sections 3 and 4).
pub fn hamilton_allocations()
    ensures { HamiltonAllocations }
{}

/// When there is a set of winners to be seated; then ties are well-defined, and each lot has one choice
/// (docs/methods.md, sections 4 and 8).
pub fn coverings()
    ensures well_defined { Coverings }
    ensures full { FullCoverings }
{}

/// A growth yields exactly one house, or exactly one fault (docs/methods.md, section 5).
pub fn growths()
    ensures { Growths }
{}

/// What a lot draws next is the entry that stands first in it of those that are left (docs/methods.md, section 4).
pub fn draws()
    ensures { Draws }
{}

/// Awards by batches of equal ranks give the tops of any falling ladders, their choices and their steps
/// (docs/methods.md, section 7).
pub fn batches()
    ensures { Batches }
{}

/// Within a batch the peers get their seats one by one, in any order (docs/methods.md, section 7).
pub fn walks()
    ensures { Walks }
{}

/// The divisor allocations are the tops of their ladders (docs/methods.md, section 7).
pub fn divisor_ladders()
    ensures { DivisorLadders }
{}

/// The Hamilton allocations are the tops of their ladders (docs/methods.md, section 7).
pub fn hamilton_ladders()
    ensures { HamiltonLadders }
{}

/// The sets of winners to be seated are the tops of their ladders (docs/methods.md, section 8).
pub fn covering_ladders()
    ensures { CoveringLadders }
{}

/// The first settled vector that meets the minima gives the least house (docs/methods.md, sections 5 and 7).
pub fn growth_batches()
    ensures { GrowthBatches }
{}

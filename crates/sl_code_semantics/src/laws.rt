//! Laws of the counting machine. Each function does nothing: its contract is the law.

ghost use Rattle.sl_code_semantics.specs.Laws.{StartsAreSafe, SafeSteps, NeverStuck};
ghost use Rattle.sl_code_semantics.specs.SameLots.{SameLots, SameCovers, SameDraws};

/// A run of a code that the verifier accepts may begin (docs/machine.md, section 5).
pub fn starts_are_safe()
    ensures { StartsAreSafe }
{}

/// Each step from a place and a state to which such a run may come has a case, and leads to such a place and state again
/// (docs/machine.md, section 5).
pub fn safe_steps()
    ensures { SafeSteps }
{}

/// No run of a code that the verifier accepts is ever stuck, whatever the returns and the steps (docs/machine.md, section 5).
pub fn never_stuck()
    ensures { NeverStuck }
{}

/// The lot of a stage in the machine's table is the lot that the meaning of a rulebook has among the same entries (docs/machine.md,
/// section 3).
pub fn same_lots()
    ensures { SameLots }
{}

/// Such a lot covers a table exactly if the meaning's lot names all the peers (docs/machine.md, section 3).
pub fn same_covers()
    ensures { SameCovers }
{}

/// Such a lot draws, of the tied entries that are left, the one that the meaning's lot draws next (docs/machine.md, section 3).
pub fn same_draws()
    ensures { SameDraws }
{}

//! What these plans achieve. Each function does nothing: its contract is the law.

ghost use Rattle.sl_compile_pieces.specs.exprs.Meaning.{ExprsAchieve};
ghost use Rattle.sl_compile_pieces.specs.exprs.Stages.{StagesAchieve};

/// The plans of a typed expression leave the column and the records that it means, or end the run with the fault that it means.
pub fn exprs_achieve()
    ensures { ExprsAchieve }
{}

/// The plans of a typed book's stages leave their columns and records, or end the run with the first fault.
pub fn stages_achieve()
    ensures { StagesAchieve }
{}

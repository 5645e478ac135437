//! What the plans of splits and growths achieve. Each function does nothing: its contract is the law.

ghost use Rattle.sl_compile_pieces.specs.nodes.Nodes.{GrowthsAchieve, SplitsAchieve};

/// The plan of a split leaves the column and the records that the split means, or ends the run with the fault that it means.
pub fn splits_achieve()
    ensures { SplitsAchieve }
{}

/// The plan of a growth leaves the column and the records that the growth means, or ends the run with the fault that it means.
pub fn growths_achieve()
    ensures { GrowthsAchieve }
{}

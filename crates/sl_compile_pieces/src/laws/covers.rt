//! What the plan of a covering achieves. The function does nothing: its contract is the law.

ghost use Rattle.sl_compile_pieces.specs.covers.Covering.{CoveringsAchieve};

/// The plan of a covering places the winners as the lists' choices say, or ends the run with the first tie.
pub fn coverings_achieve()
    ensures { CoveringsAchieve }
{}

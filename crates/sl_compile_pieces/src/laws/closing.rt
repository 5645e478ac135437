//! What these plans achieve. The function does nothing: its contract is the law.

ghost use Rattle.sl_compile_pieces.specs.closing.Closing.{ClosingsAchieve};

/// The plans of a typed book's last clause yield the table that it means after its stages, or end the run with the first tie.
pub fn closings_achieve()
    ensures { ClosingsAchieve }
{}

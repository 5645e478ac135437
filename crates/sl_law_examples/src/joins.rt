//! What fails where two entries join. Each function does nothing: its contract is the example.

ghost use Rattle.sl_law_examples.specs.Failures.{JeffersonByTie, AdamsByTie, WebsterLoses, WebsterWins};
ghost use Rattle.sl_law_examples.specs.Joined.{JoinLoses, JoinWins, JeffersonWins, HamiltonLoses, HamiltonWins};
ghost use Rattle.sl_law_examples.specs.Measures.{TwoByLot};

/// Under Jefferson's method a join may lose a seat by a tie: of three seats, 1, 1 and 2 votes have one each, and 2, 0 and 2 votes
/// have 1, 0 and 2.
pub fn jefferson_by_tie()
    ensures { JeffersonByTie }
{}

/// Under Adams's method a join may win a seat by a tie: of one seat, 1, 1 and 2 votes have 0, 0 and 1, and 2, 0 and 2 votes have 1, 0
/// and 0.
pub fn adams_by_tie()
    ensures { AdamsByTie }
{}

/// Under Webster's method a join may lose a seat without a tie: of four seats, 1, 1 and 4 votes have 1, 1 and 2, and 2, 0 and 4 votes
/// have 1, 0 and 3.
pub fn webster_loses()
    ensures { WebsterLoses }
{}

/// And the same join may win a seat without a tie: of two seats, the votes before have 0, 0 and 2, and those after it 1, 0 and 1.
pub fn webster_wins()
    ensures { WebsterWins }
{}

/// By the same three a join may lose a seat without a tie.
pub fn join_loses()
    ensures { JoinLoses }
{}

/// By Dean's and Hill's methods a join may win a seat without a tie.
pub fn join_wins()
    ensures { JoinWins }
{}

/// By Jefferson's method a join may win a seat without a tie.
pub fn jefferson_wins()
    ensures { JeffersonWins }
{}

/// By Hamilton's method a join may lose a seat without a tie.
pub fn hamilton_loses()
    ensures { HamiltonLoses }
{}

/// And it may win one.
pub fn hamilton_wins()
    ensures { HamiltonWins }
{}

/// By lot a join may win two seats under Jefferson's method, and lose two under Adams's: two of four equal entries have none of two seats and then both,
/// or four of six and then two.
pub fn two_by_lot()
    ensures { TwoByLot }
{}

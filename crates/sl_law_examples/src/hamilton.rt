//! What fails under Hamilton's method. Each function does nothing: its contract is the example.

ghost use Rattle.sl_law_examples.specs.Failures.{Alabama, MoreVotes, NewEntry, NotCoherent};
ghost use Rattle.sl_law_examples.specs.Measures.{EqualRemainders, PreferredDeviates, OneGains};

/// A larger house takes a seat away: with 3, 3 and 1 votes the third entry has one of three seats and none of four, and with 6, 6 and 2
/// votes two of ten and one of eleven.
pub fn alabama()
    ensures { Alabama }
{}

/// More votes lose a seat, in the same house. Of five seats, 5, 1 and 3 votes have 3, 0 and 2; then the first entry gains a vote and the
/// third one three, and the first loses a seat to the second, which gained none. Of three seats, 4, 15 and 15 votes have one each; then
/// the first gains a vote, the second loses one, the third nine, and the first loses its seat to the second.
pub fn more_votes()
    ensures { MoreVotes }
{}

/// A new entry changes how the old ones share: of three seats, 6 and 1 votes have 3 and 0; a third entry comes with 6 votes and two seats
/// of its own, and the first one loses a seat to the second.
pub fn new_entry()
    ensures { NewEntry }
{}

/// So Hamilton's method is not coherent: the first two entries of that allocation have among them no allocation of their seats.
pub fn not_coherent()
    ensures { NotCoherent }
{}

/// Equal votes may have seats that are one apart, and half of the votes no seat, with preference for a majority too: of one seat, 1 and 1 votes have
/// 1 and 0, or 0 and 1.
pub fn equal_remainders()
    ensures { EqualRemainders }
{}

/// With preference for a majority the seats may deviate more from the shares: of two seats, 4, 2 and 1 votes have 1, 1 and 0, and with preference 2, 0
/// and 0.
pub fn preferred_deviates()
    ensures { PreferredDeviates }
{}

/// One entry gains a vote and the others keep theirs: of three seats, 3, 3 and 1 votes have one each, and 4, 3 and 1 have 2, 1 and 0.
pub fn one_gains()
    ensures { OneGains }
{}

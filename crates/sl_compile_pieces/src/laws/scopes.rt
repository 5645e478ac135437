//! What holds of the scopes of every form.

ghost use Rattle.sl_compile_pieces.specs.scopes.Scopes.{ScopesApart, ScopesHold};
ghost use Rattle.sl_compile_pieces.specs.scopes.Sums.{EntriesAreSummed};

/// The cursors of a scope stand at its amount, and those of an entry at the entry's place and at its scope; the places of a scope's entries
/// increase.
pub fn scopes_hold()
    ensures { ScopesHold }
{}

/// No two scopes have entries in one place.
pub fn scopes_apart()
    ensures { ScopesApart }
{}

/// The plan of sums leaves in its register the sum of a column over the entries of a scope.
pub fn entries_are_summed()
    ensures { EntriesAreSummed }
{}

//! What stands in the cell of a list.

ghost use Rattle.std.specs.Prelude.{◌≡◌, None, Some};
ghost use Rattle.sl_law_meaning.specs.returns.Votes.{IsListVotes};

use sl_law_meaning::ListVotes;
use std::marker::Model;

// What stands for no list, and for names left that are not given: no list has so many votes or names.
const NONE: u32 = u32::MAX;

// The votes of a list, if there is one. A row has a cell for each party that there may be, so a cell takes 12 bytes where
// an `Option<ListVotes>` takes 20.
#[derive(Clone, Copy)]
pub(crate) struct Cell {
    valid: u32,
    counted: u32,
    slate: u32,
}

impl Model for Cell {
    ghost use Rattle.std.specs.Prelude.{Option};
    ghost use Rattle.sl_law_meaning.specs.declared.election.ListVotes.{ListVotes};

    ghost Value = { Option ListVotes };

    ghost use Rattle.sl_stages.specs.inner.Cells.{votes_in, cell_of, IsPlain, kept_again};

    ghost view = { votes_in };

    ghost invariant = { IsPlain };

    ghost inverse = { cell_of };

    ghost inverse_ok = { kept_again };
}

impl Cell {
    // The cell without a list.
    pub(crate) fn blank() -> Cell
        ensures { result ≡ None }
    {
        Cell {
            valid: NONE,
            counted: 0,
            slate: NONE,
        }
    }

    // The cell of a list.
    pub(crate) fn of(votes: ListVotes) -> Cell
        requires { IsListVotes votes }
        ensures { result ≡ Some votes }
    {
        Cell {
            valid: votes.valid,
            counted: votes.counted,
            slate: votes.slate.unwrap_or(NONE),
        }
    }

    // The votes of its list, if it has one.
    pub(crate) fn votes(self) -> Option<ListVotes>
        ensures { result ≡ self }
    {
        if self.valid == NONE {
            return None;
        }
        let slate = if self.slate == NONE {
            None
        } else {
            Some(self.slate)
        };
        Some(ListVotes {
            valid: self.valid,
            counted: self.counted,
            slate,
        })
    }
}

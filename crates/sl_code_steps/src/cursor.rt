//! A cursor of the machine that stands at no cell of a column.

ghost use Rattle.std.specs.Prelude.{◌≡◌, Some, None, IsSome};

use std::marker::Model;

/// A cursor, which stands at a number if it is set. Whoever knows that it is set reads the number without a test.
#[derive(Drop)]
pub(crate) struct Cursor {
    is_set: bool,
    place: usize,
}

impl Model for Cursor {
    ghost use Rattle.std.specs.Prelude.{ℕ, Option, Some, None, if◌then◌else◌};

    ghost Value = { Option ℕ };

    ghost view = { λ c. if c.is_set then Some c.place else None };
}

impl Cursor {
    /// A cursor that is not set.
    pub(crate) fn unset() -> Cursor
        ensures { result ≡ None }
    {
        Cursor {
            is_set: false,
            place: 0,
        }
    }

    /// Moves it to a number.
    pub(crate) fn set(&mut self, place: usize)
        ensures { self.new ≡ Some place }
    {
        self.is_set = true;
        self.place = place;
    }

    /// Moves it on to a number.
    pub(crate) fn move_on(&mut self, place: usize)
        requires { IsSome self.old }
        ensures { self.new ≡ Some place }
    {
        self.place = place;
    }

    /// Leaves it unset.
    pub(crate) fn clear(&mut self)
        ensures { self.new ≡ None }
    {
        self.is_set = false;
    }

    /// The number at which it stands.
    pub(crate) fn place(&self) -> usize
        requires { IsSome self.now }
        ensures { self.now ≡ Some result }
    {
        self.place
    }
}

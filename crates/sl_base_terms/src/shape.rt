//! The shapes of columns.

ghost use Rattle.std.specs.Prelude.{◌≡◌};
ghost use Rattle.sl_base_terms.specs.Shapes.{shape_number};

/// What a column has a number for: one for all, each party, each Land, or each list.
#[derive(Clone, Copy, PartialEq, Eq)]
pub enum Shape {
    One,
    Party,
    Land,
    List,
}

/// The shapes, in the order of their numbers.
pub const SHAPES: [Shape; 4] = [Shape::One, Shape::Party, Shape::Land, Shape::List];

impl Shape {
    /// Its number, from 0.
    pub fn number(self) -> u8
        ensures { result ≡ shape_number self }
    {
        self as u8
    }
}

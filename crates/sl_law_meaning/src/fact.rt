//! The facts that a rulebook reads from the returns: a keyword, a shape and a unit each (docs/language.md, section 3).

ghost use Rattle.std.specs.Prelude.{◌≡◌};
ghost use Rattle.sl_law_meaning.specs.book.Typing.{fact_number, fact_type};

use crate::book::ColumnType;
use sl_base_terms::Shape;

/// A column that no stage computes.
#[derive(Clone, Copy, Debug)]
pub enum Fact {
    /// The seats of the house: those of the returns, else those of the book.
    House,
    /// The counted votes of each list of a party that takes part.
    Counted,
    /// The winners of each list of a party that takes part.
    Winners,
    /// The other winners, in each Land.
    Outside,
    /// The winners without a party, in each Land.
    Independents,
    /// The people of each Land.
    Population,
}

/// All facts, in the order of their numbers.
pub const FACTS: [Fact; 6] = [
    Fact::House,
    Fact::Counted,
    Fact::Winners,
    Fact::Outside,
    Fact::Independents,
    Fact::Population,
];

impl Fact {
    /// Its number, from 0.
    pub fn number(self) -> u8
        ensures { result ≡ fact_number self }
    {
        self as u8
    }

    /// The shape and the unit of the column.
    pub fn column_type(self) -> ColumnType
        ensures { result ≡ fact_type self }
    {
        match self {
            Fact::House => ColumnType::seats(Shape::One),
            Fact::Counted => ColumnType::votes(Shape::List),
            Fact::Winners => ColumnType::seats(Shape::List),
            Fact::Outside => ColumnType::seats(Shape::Land),
            Fact::Independents => ColumnType::seats(Shape::Land),
            Fact::Population => ColumnType::votes(Shape::Land),
        }
    }
}

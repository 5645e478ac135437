//! The keywords that stand for facts, pairs and axes.

ghost use Rattle.std.specs.Prelude.{◌≡◌};
ghost use Rattle.sl_parse.specs.Words.{axis_word, fact_word, pairing_word};

use sl_law_meaning::{Axis, Fact, Pairing};
use sl_lex::Keyword;

/// The keyword of a fact, which is a column of the returns.
pub fn fact_keyword(fact: Fact) -> Keyword
    ensures { result ≡ fact_word fact }
{
    match fact {
        Fact::House => Keyword::House,
        Fact::Counted => Keyword::Counted,
        Fact::Winners => Keyword::Winners,
        Fact::Outside => Keyword::Outside,
        Fact::Independents => Keyword::Independents,
        Fact::Population => Keyword::Population,
    }
}

/// The keyword of a form that pairs two columns.
pub fn pairing_keyword(pairing: Pairing) -> Keyword
    ensures { result ≡ pairing_word pairing }
{
    match pairing {
        Pairing::Larger => Keyword::Larger,
        Pairing::Less => Keyword::Less,
    }
}

/// The keyword of what is left of a column's shape by a sum.
pub fn axis_keyword(axis: Axis) -> Keyword
    ensures { result ≡ axis_word axis }
{
    match axis {
        Axis::Party => Keyword::Party,
        Axis::Land => Keyword::Land,
        Axis::All => Keyword::All,
    }
}

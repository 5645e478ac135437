//! The words of methods, shapes and units.

ghost use Rattle.std.specs.Prelude.{◌≡◌};
ghost use Rattle.sl_lex.specs.Keywords.{spelling};
ghost use Rattle.sl_parse.specs.Words.{method_word};
ghost use Rattle.sl_report_forms.specs.Cells.{content_of};
ghost use Rattle.sl_report_tables.specs.Stages.{shape_cell, unit_cell};
ghost use Rattle.sl_report_tables.specs.Words.{method_written};

use crate::texts::{SHAPE_LAND, SHAPE_LIST, SHAPE_ONE, SHAPE_PARTY, UNIT_SEATS, UNIT_VOTES};
use sl_base_quotients::Method;
use sl_lex::Keyword;
use sl_parse::{keyword_method, method_keyword};
use sl_report_forms::Cell;
use sl_stages::{Shape, Unit};

/// A method, as a book writes it.
pub fn method_word(method: Method) -> &'static str
    ensures { result.now ≡ spelling (method_word method) }
{
    method_keyword(method).spelling()
}

/// The method that a book writes so, if there is one.
pub fn method_of(word: &str) -> Option<Method>
    ensures { result ≡ method_written word.now }
{
    match Keyword::from_word(word.as_bytes()) {
        Some(keyword) => keyword_method(keyword),
        None => None,
    }
}

/// A shape, by what it has a number for.
pub(crate) fn shape_cell(shape: Shape) -> Cell
    ensures { content_of result ≡ shape_cell shape }
{
    Cell::Word(match shape {
        Shape::One => SHAPE_ONE,
        Shape::Party => SHAPE_PARTY,
        Shape::Land => SHAPE_LAND,
        Shape::List => SHAPE_LIST,
    })
}

/// A unit.
pub(crate) fn unit_cell(unit: Unit) -> Cell
    ensures { content_of result ≡ unit_cell unit }
{
    Cell::Word(match unit {
        Unit::Seats => UNIT_SEATS,
        Unit::Votes => UNIT_VOTES,
    })
}

//! What the first token of an expression tells of it.

ghost use Rattle.std.specs.Prelude.{◌≡◌};
ghost use Rattle.sl_parse.specs.Words.{form_of};

use sl_law_meaning::{Fact, Pairing};
use sl_lex::{Keyword, Kind};

/// The form of an expression.
#[derive(Clone, Copy)]
pub(crate) enum Form {
    Fact(Fact),
    Name,
    Sum,
    Pair(Pairing),
    Split,
    Grow,
}

impl Form {
    /// The form of the expressions that begin with such a token, if any do.
    pub fn of(kind: Kind) -> Option<Form>
        ensures { result ≡ form_of kind }
    {
        let keyword = match kind {
            Kind::Name => return Some(Form::Name),
            Kind::Keyword(keyword) => keyword,
            _ => return None,
        };
        match keyword {
            Keyword::House => Some(Form::Fact(Fact::House)),
            Keyword::Counted => Some(Form::Fact(Fact::Counted)),
            Keyword::Winners => Some(Form::Fact(Fact::Winners)),
            Keyword::Outside => Some(Form::Fact(Fact::Outside)),
            Keyword::Independents => Some(Form::Fact(Fact::Independents)),
            Keyword::Population => Some(Form::Fact(Fact::Population)),
            Keyword::Sum => Some(Form::Sum),
            Keyword::Larger => Some(Form::Pair(Pairing::Larger)),
            Keyword::Less => Some(Form::Pair(Pairing::Less)),
            Keyword::Split => Some(Form::Split),
            Keyword::Grow => Some(Form::Grow),
            _ => None,
        }
    }
}

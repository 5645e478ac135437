//! The keywords that stand for methods.

ghost use Rattle.std.specs.Prelude.{◌≡◌};
ghost use Rattle.sl_lex.specs.declared.token.Kind.TheVariants as kinds;
ghost use Rattle.sl_parse.specs.Words.{method_of, method_word};

use sl_base_quotients::{Divisor, Method};
use sl_lex::Keyword;

/// The keyword of a method.
pub fn method_keyword(method: Method) -> Keyword
    ensures { result ≡ method_word method }
{
    match method {
        Method::Divisor(Divisor::Adams) => Keyword::Adams,
        Method::Divisor(Divisor::Dean) => Keyword::Dean,
        Method::Divisor(Divisor::Hill) => Keyword::Hill,
        Method::Divisor(Divisor::Webster) => Keyword::Webster,
        Method::Divisor(Divisor::Jefferson) => Keyword::Jefferson,
        Method::Hamilton => Keyword::Hamilton,
    }
}

/// The method that a keyword stands for, if it stands for one.
pub fn keyword_method(keyword: Keyword) -> Option<Method>
    ensures { result ≡ method_of (kinds.Keyword keyword) }
{
    match keyword {
        Keyword::Adams => Some(Method::Divisor(Divisor::Adams)),
        Keyword::Dean => Some(Method::Divisor(Divisor::Dean)),
        Keyword::Hill => Some(Method::Divisor(Divisor::Hill)),
        Keyword::Webster => Some(Method::Divisor(Divisor::Webster)),
        Keyword::Jefferson => Some(Method::Divisor(Divisor::Jefferson)),
        Keyword::Hamilton => Some(Method::Hamilton),
        _ => None,
    }
}

//! Laws of rulebooks (docs/language.md). Each function does nothing: its contract is the law.

ghost use Rattle.sl_law_meaning.specs.laws.BookLaws.{TypesByTests};

/// All tests of an expression hold exactly where it has a type by the table of expressions
/// (docs/language.md, section 3), and that type is the one that the checker finds.
pub fn typed_expressions()
    ensures { TypesByTests }
{}

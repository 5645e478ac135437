//! What holds of the code of a rulebook. Each function does nothing: its contract is the law.

ghost use Rattle.sl_compile.specs.Laws.{BooksAreCompiled, BooksAreKinded, BooksAreShort};

/// The code of a typed book within the limits counts as the book means.
pub fn books_are_compiled()
    ensures { BooksAreCompiled }
{}

/// The verifier accepts it.
pub fn books_are_kinded()
    ensures { BooksAreKinded }
{}

/// It has at most 50,000 instructions.
pub fn books_are_short()
    ensures { BooksAreShort }
{}

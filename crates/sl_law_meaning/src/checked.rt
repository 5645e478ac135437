//! Rulebooks that are well formed.

ghost use Rattle.std.specs.Prelude.{IsTrue};
ghost use Rattle.sl_law_meaning.specs.book.Books.{book_of};
ghost use Rattle.sl_law_meaning.specs.book.Typing.{is_typed};

use crate::book::Book;

/// A rulebook that passes every test of docs/language.md, section 5: its expressions have shapes and units, and its numbers are in range.
#[derive(Drop)]
pub struct CheckedBook {
    pub book: Book,
    pub ghost typed: { IsTrue (is_typed (book_of book)) },
}

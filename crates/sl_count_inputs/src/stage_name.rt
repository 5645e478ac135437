//! The stages of a rulebook by their names.

ghost use Rattle.std.specs.Prelude.{◌≡◌, position};
ghost use Rattle.std.specs.Str.{bytes_eq};
ghost use Rattle.sl_law_meaning.specs.book.Books.{book_of};
ghost use Rattle.sl_count_inputs.specs.StageNames.{stage_number};

use sl_stages::{Book, Stage};

// The number of the stage of that name among a book's stages.
fn number_among(stages: &[Stage], name: &str) -> Option<usize>
    ensures { result ≡ position (λ s. bytes_eq name.now s.name) stages.now }
{
    stages
        .iter()
        .position(|stage| name.as_bytes() == stage.name.as_bytes())
}

/// The number of the stage of that name, from 0, if the book has one.
pub fn stage_number(book: &Book, name: &str) -> Option<usize>
    ensures { result ≡ stage_number name.now (book_of book.now) }
{
    number_among(&book.stages, name)
}

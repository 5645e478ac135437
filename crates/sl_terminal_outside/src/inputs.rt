//! The inputs of a command, by the words that name them.

ghost use Rattle.std.specs.Prelude.{◌≡◌, IfErr, IfOk};
ghost use Rattle.sl_count_inputs.specs.Reading.{book_input};
ghost use Rattle.sl_count_inputs.specs.declared.status.DeskError.TheVariants as fault;
ghost use Rattle.sl_terminal_outside.specs.Inputs.{IsBookUnopened, named_input};

use crate::outside::Outside;
use sl_count_inputs::{BookSource, DeskError, Input};

/// An input that could not be opened: which one, its path, and the reason.
#[derive(Drop)]
pub struct Unopened<'a, E> {
    pub input: Input,
    pub path: &'a str,
    pub reason: E,
}

impl<E> Unopened<'_, E> {
    /// The error of a call that stands for it.
    pub fn error(&self) -> DeskError
        ensures { result ≡ fault.Read self.now.input }
    {
        DeskError::Read(self.input)
    }
}

/// The file at a path, as that input.
///
/// # Errors
///
/// The input that could not be opened.
pub fn open<'a, O: Outside>(
    outside: &O,
    path: &'a str,
    input: Input,
) -> Result<O::File, Unopened<'a, O::Reason>>
    ensures file { IfOk result (λ f. O.File.remaining f ≡ O.bytes outside.now path.now) }
    ensures error { IfErr result (λ e. (e.input ≡ input) × O.lacks outside.now path.now) }
{
    match outside.open(path) {
        Ok(file) => Ok(file),
        Err(reason) => Err(Unopened {
            input,
            path,
            reason,
        }),
    }
}

/// A rulebook: of the library if the word begins with `@`, else of the file at that path.
///
/// # Errors
///
/// The input that could not be opened.
pub fn open_book<'a, O: Outside>(
    outside: &O,
    word: &'a str,
) -> Result<BookSource<'a, O::File>, Unopened<'a, O::Reason>>
    ensures book { IfOk result (λ b. book_input O.File.remaining b ≡ named_input (O.bytes outside.now) word.now) }
    ensures error { IfErr result (λ e. IsBookUnopened (O.lacks outside.now) word.now e.input) }
{
    match word.strip_prefix('@') {
        Some(name) => Ok(BookSource::Library(name)),
        None => match open(outside, word, Input::Book) {
            Ok(file) => Ok(BookSource::Reader(file)),
            Err(unopened) => Err(unopened),
        },
    }
}

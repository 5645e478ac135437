//! The command that writes a code file: a file that would be missed is not written.

ghost use Rattle.std.specs.Prelude.{◌≡◌, [], IfOk, IfSome, true};
ghost use Rattle.sl_desk.specs.Compiling.{IsCompiling, IsCompilingOutput};
ghost use Rattle.sl_explain_calls.specs.Codes.{check_subject};
ghost use Rattle.sl_count_inputs.specs.Judging.{tree_verdict};
ghost use Rattle.sl_count_inputs.specs.declared.status.Status.TheVariants as status;
ghost use Rattle.sl_terminal_outside.specs.Inputs.{named_input};
ghost use Rattle.sl_terminal_commands.specs.Files.{IsSpared, MustStay, may_be_lost_in};
ghost use Rattle.sl_terminal_commands.specs.Said.{IsSaid, said_of};
ghost use Rattle.sl_terminal_commands.specs.Tellings.{IsOfBook};
ghost use Rattle.sl_terminal_commands.specs.inner.Outcomes.{AreOfBook, IfAnswered, IfSpared, IsLooked, IsLookedAt};

use crate::answered::{Answered, check_text, compiled};
use crate::commands::{Commands, Outcome};
use crate::failure::Failure;
use sl_base_quotients::NoMemory;
use sl_count_inputs::{Bytes, Input, MAX_CODE_BYTES, ReadBook, read_all};
use sl_desk::compilation_of;
use sl_explain_calls::Lost;
use sl_explain_texts::Language;
use sl_terminal_outside::Outside;
use std::alloc::Global;

// How each code file begins.
const OPENING: &[u8] = b"SLC\x01";

// Whether a file of these bytes may be lost: it is empty or a code file.
fn may_be_lost(bytes: &Bytes) -> bool
    ensures { result ≡ may_be_lost_in bytes.now }
{
    match bytes {
        Bytes::Whole(bytes) => bytes.is_empty() || bytes.as_slice().starts_with(OPENING),
        Bytes::TooLong => false,
    }
}

// Whether they are those of a rulebook, which may be the same file under another name.
fn are_of_book(bytes: &Bytes, book: &[u8]) -> bool
    ensures { result ≡ true → AreOfBook bytes.now book.now }
{
    match bytes {
        Bytes::Whole(bytes) => !book.is_empty() && bytes.as_slice() == book,
        Bytes::TooLong => false,
    }
}

// What compiling a rulebook that was read answers.
fn code_answered(
    alloc: Global,
    language: Language,
    read: &ReadBook<'_>,
    book: &str,
) -> Result<Answered, NoMemory>
    ensures output { IfOk result (λ a. IsCompiling (tree_verdict read.now.verdict) a.status a.made.items a.text.items) }
    ensures said { IfOk result (λ a. IsSaid language (said_of (check_subject read.now.verdict)) a.said.items) }
    ensures done { IfOk result (λ a. a.status ≡ status.Done → a.said.items ≡ []) }
{
    let said = check_text(alloc, language, book, read)?;
    match compilation_of(alloc, &read.verdict) {
        Ok(compilation) => Ok(compiled(compilation, said)),
        Err(NoMemory) => Err(NoMemory),
    }
}

impl<O: Outside> Commands<'_, O> {
    // Looks at the file that lies where the code of a rulebook is to be written, of which these bytes were read: whether it would be lost.
    fn look_at<'a>(
        &self,
        path: &'a str,
        book: &[u8],
        is_forced: bool,
    ) -> Result<Option<Lost>, Failure<'a, O::Reason>>
        ensures { IfOk result (IsLookedAt (O.bytes self.now.outside.now path.now) book.now is_forced) }
    {
        let Some(mut file) = self.outside.file_at(path) else {
            return Ok(None);
        };
        let bytes = read_all(self.alloc, &mut file, Input::Code, MAX_CODE_BYTES)?;
        if are_of_book(&bytes, book) {
            Ok(Some(Lost::Rulebook))
        } else if is_forced || may_be_lost(&bytes) {
            Ok(None)
        } else {
            Ok(Some(Lost::Other))
        }
    }

    // What compiling a rulebook that was read answers, if the file at the path may be lost.
    fn compile_read<'a>(
        &self,
        read: &ReadBook<'_>,
        book: &str,
        path: &'a str,
        is_forced: bool,
    ) -> Result<Outcome<'a>, Failure<'a, O::Reason>>
        ensures output { IfOk result (λ o. IfAnswered o (λ a. IsCompiling (tree_verdict read.now.verdict) a.status a.made.items a.text.items)) }
        ensures said { IfOk result (λ o. IfAnswered o (λ a. IsSaid self.now.language (said_of (check_subject read.now.verdict)) a.said.items)) }
        ensures done { IfOk result (λ o. IfAnswered o (λ a. a.status ≡ status.Done → a.said.items ≡ [])) }
        ensures lost { IfOk result (IsLooked (O.bytes self.now.outside.now path.now) read.now.text.items is_forced) }
    {
        match self.look_at(path, read.text.as_slice(), is_forced)? {
            Some(lost) => Ok(Outcome::Spared(path, lost)),
            None => Ok(Outcome::Answered(code_answered(self.alloc, self.language, read, book)?)),
        }
    }

    // What compiling a rulebook answers. Where it is refused, the file is left empty.
    pub(crate) fn code<'a>(
        &self,
        book: &'a str,
        path: &'a str,
        is_forced: bool,
    ) -> Result<Outcome<'a>, Failure<'a, O::Reason>>
        ensures output { IfOk result (λ o. IfAnswered o (λ a. IfSome (named_input (O.bytes self.now.outside.now) book.now) (λ input.
            IsCompilingOutput input a.status a.made.items a.text.items))) }
        ensures said { IfOk result (λ o. IfAnswered o (λ a. IsOfBook (O.bytes self.now.outside.now) book.now (λ s. IsSaid self.now.language s a.said.items))) }
        ensures done { IfOk result (λ o. IfAnswered o (λ a. a.status ≡ status.Done → a.said.items ≡ [])) }
        ensures lost { IfOk result (λ o. IfAnswered o (λ a. MustStay (O.bytes self.now.outside.now path.now) is_forced → ⊥)) }
        ensures spared { IfOk result (λ o. IfSpared o (IsSpared (O.bytes self.now.outside.now path.now) (named_input (O.bytes self.now.outside.now) book.now) is_forced)) }
    {
        match self.book_at(book) {
            Ok(named) => {
                let outcome = self.compile_read(&named.read, book, path, is_forced);
                drop(named);
                outcome
            }
            Err(failure) => Err(failure),
        }
    }
}

//! Rulebooks and returns that are read, and what the command answers that reports the sums of returns. Each input is read and judged once.

ghost use Rattle.std.specs.Option.{option_map};
ghost use Rattle.std.specs.Prelude.{◌≡◌, [], Bool, IfErr, IfOk, is_err, map};
ghost use Rattle.sl_count_inputs.specs.declared.status.Status.TheVariants as status;
ghost use Rattle.sl_terminal_commands.specs.Beside.{AreNames};
ghost use Rattle.sl_terminal_commands.specs.Requests.{IsTotalsOf};
ghost use Rattle.sl_terminal_commands.specs.Said.{IsSaid, said_of};
ghost use Rattle.sl_explain_calls.specs.Codes.{subject_of};
ghost use Rattle.sl_terminal_commands.specs.inner.Comparing.{AreRead, AreReadOf, IsReadBook};
ghost use Rattle.sl_terminal_commands.specs.inner.Totals.{IsTotalsAnswer, IsTotalsOn, bytes_in, verdict_in};

use crate::answered::{Answered, ReadFile, reported, told_text};
use crate::commands::Commands;
use crate::failure::Failure;
use crate::reports::{Writing, book_bytes};
use sl_base_quotients::{Method, NoMemory};
use sl_count_inputs::{Input, ReadBook, ReadReturns, read_book, read_election};
use sl_report_commands::{
    Answer, BookVerdict, Forms, FullNames, Style, Texts, Written, total_judged,
};
use sl_terminal_outside::{Outside, open, open_book};
use std::alloc::Global;

/// A rulebook that was read, with the word that names it, and with the method that took the place of its own, if one did.
#[derive(Drop)]
pub(crate) struct NamedBook<'a> {
    pub(crate) word: &'a str,
    pub(crate) method: Option<Method>,
    pub(crate) read: ReadBook<'a>,
}

/// Returns that were read, with their path.
#[derive(Drop)]
pub(crate) struct NamedReturns<'a> {
    pub(crate) path: &'a str,
    pub(crate) read: ReadReturns,
}

// What a rulebook comes to, if one is given.
fn verdict_of<'b>(book: Option<&'b NamedBook<'_>>) -> Option<&'b BookVerdict<'b>>
    ensures { option_map (λ v. v.now) result ≡ verdict_in (option_map (λ b. b.now) book.entry) }
{
    match book {
        Some(book) => Some(&book.read.verdict),
        None => None,
    }
}

// The bytes of a rulebook, if one is given, and of returns.
fn texts_of<'b>(book: Option<&'b NamedBook<'_>>, returns: &'b NamedReturns<'_>) -> Texts<'b>
    ensures book { result.book.now ≡ bytes_in (option_map (λ b. b.now) book.entry) }
    ensures returns { result.returns.now ≡ returns.now.read.text.items }
{
    let returns = returns.read.text.as_slice();
    match book {
        Some(book) => Texts {
            book: book_bytes(book.word, book.read.text.as_slice()),
            returns,
        },
        None => Texts { book: b"", returns },
    }
}

// The rulebook as a file, if one is given.
fn file_of<'b>(book: Option<&'b NamedBook<'_>>) -> ReadFile<'b> {
    match book {
        Some(book) => ReadFile {
            input: Input::Book,
            path: book.word,
            bytes: book.read.text.as_slice(),
        },
        None => ReadFile {
            input: Input::Book,
            path: "",
            bytes: b"",
        },
    }
}

// Why there are no totals of returns that were read, by a rulebook if one is given, if there are none.
fn said_of_totals(
    alloc: Global,
    written: &Written,
    book: Option<&NamedBook<'_>>,
    returns: &NamedReturns<'_>,
    style: Style,
) -> Result<Vec<u8>, NoMemory>
    ensures { IfOk result (λ text. IsSaid style.language (said_of (option_map subject_of written.now.told)) text.items) }
{
    let files = [
        file_of(book),
        ReadFile {
            input: Input::Returns,
            path: returns.path,
            bytes: returns.read.text.as_slice(),
        },
    ];
    told_text(alloc, style.language, &files, &written.told)
}

// What the totals of returns that were read answer, by a rulebook if one is given, with full names.
fn totals_with<F: Forms>(
    forms: &F,
    alloc: Global,
    book: Option<&NamedBook<'_>>,
    returns: &NamedReturns<'_>,
    names: &Result<FullNames, Answer>,
    style: Style,
) -> Result<Answered, NoMemory>
    ensures { IfOk result (IsTotalsAnswer (F.is_text forms.now) (is_err names.now) (option_map (λ b. b.now) book.entry) returns.now style) }
{
    let (verdict, texts) = (verdict_of(book), texts_of(book, returns));
    let returns_verdict = &returns.read.verdict;
    let written = total_judged(forms, alloc, verdict, returns_verdict, names, texts, style)?;
    match said_of_totals(alloc, &written, book, returns, style) {
        Ok(said) => Ok(reported(alloc, written, said)),
        Err(NoMemory) => Err(NoMemory),
    }
}

impl<O: Outside> Commands<'_, O> {
    // A rulebook: of the library if the word begins with `@`, else of the file at that path.
    pub(crate) fn book_at<'a>(&self, word: &'a str) -> Result<NamedBook<'a>, Failure<'a, O::Reason>>
        ensures word { IfOk result (λ b. b.word.now ≡ word.now) }
        ensures book { IfOk result (IsReadBook (O.bytes self.now.outside.now)) }
    {
        let read = read_book(self.alloc, &mut open_book(self.outside, word)?)?;
        Ok(NamedBook {
            word,
            method: None,
            read,
        })
    }

    pub(crate) fn books_at<'a>(
        &self,
        words: &[&'a str],
    ) -> Result<Vec<NamedBook<'a>>, Failure<'a, O::Reason>>
        ensures { IfOk result (λ books. AreRead (O.bytes self.now.outside.now) (map (λ word. word.now) words.now) books.items) }
    {
        let mut books: Vec<NamedBook<'a>> = Vec::new(self.alloc);
        for word in words {
            let book = self.book_at(*word)?;
            books.push(book)?;
        }
        Ok(books)
    }

    pub(crate) fn returns_at<'a>(
        &self,
        path: &'a str,
    ) -> Result<NamedReturns<'a>, Failure<'a, O::Reason>>
        ensures { IfOk result (AreReadOf (O.bytes self.now.outside.now path.now)) }
    {
        let mut file = open(self.outside, path, Input::Returns)?;
        let read = read_election(self.alloc, &mut file)?;
        Ok(NamedReturns { path, read })
    }

    // What the totals of returns that were read answer, by a rulebook if one is given.
    fn totals_by<'a, F: Forms>(
        &self,
        forms: &F,
        book: Option<&NamedBook<'_>>,
        returns: &NamedReturns<'_>,
        writing: Writing<'a>,
    ) -> Result<Answered, Failure<'a, O::Reason>>
        ensures { IfOk result (λ a. (is_refused : Bool) × AreNames (O.bytes self.now.outside.now) (option_map (λ path. path.now) writing.entry.names) is_refused
            × IsTotalsAnswer (F.is_text forms.now) is_refused (option_map (λ b. b.now) book.entry) returns.now writing.entry.style a) }
    {
        let names = self.full_names(writing.names)?;
        let answered = totals_with(forms, self.alloc, book, returns, &names, writing.style);
        drop(names);
        Ok(answered?)
    }

    // What the totals of returns that were read answer, by the rulebook of a word if one is given.
    fn totals_on<'a, F: Forms>(
        &self,
        forms: &F,
        returns: &NamedReturns<'_>,
        book: Option<&'a str>,
        writing: Writing<'a>,
    ) -> Result<Answered, Failure<'a, O::Reason>>
        ensures { IfOk result (λ a. (is_refused : Bool) × AreNames (O.bytes self.now.outside.now) (option_map (λ path. path.now) writing.entry.names) is_refused
            × IsTotalsOn (F.is_text forms.now) (O.bytes self.now.outside.now) is_refused (option_map (λ word. word.now) book.entry) returns.now writing.entry.style a) }
    {
        match book {
            Some(word) => match self.book_at(word) {
                Ok(book) => {
                    let answered = self.totals_by(forms, Some(&book), returns, writing);
                    drop(book);
                    answered
                }
                Err(failure) => Err(failure),
            },
            None => self.totals_by(forms, None, returns, writing),
        }
    }

    /// What the totals of returns answer, with a rulebook if one is given.
    pub(crate) fn report_totals<'a, F: Forms>(
        &self,
        forms: &F,
        returns: &'a str,
        book: Option<&'a str>,
        writing: Writing<'a>,
    ) -> Result<Answered, Failure<'a, O::Reason>>
        ensures answer { IfOk result (λ a. IsTotalsOf (F.is_text forms.now) (O.bytes self.now.outside.now) returns.now (option_map (λ word. word.now) book.entry)
            (option_map (λ path. path.now) writing.entry.names) writing.entry.style a.status a.text.items (λ s. IsSaid writing.entry.style.language s a.said.items)) }
        ensures done { IfOk result (λ a. a.status ≡ status.Done → a.said.items ≡ []) }
    {
        match self.returns_at(returns) {
            Ok(read) => {
                let answered = self.totals_on(forms, &read, book, writing);
                drop(read);
                answered
            }
            Err(failure) => Err(failure),
        }
    }
}

//! The command that puts rulebooks side by side on returns, over files. Each input is judged once.

ghost use Rattle.std.specs.Prelude.{Bool, IfErr, IfOk, is_err, map, option_map};
ghost use Rattle.sl_report_commands.specs.Written.{json_digests};
ghost use Rattle.sl_terminal_commands.specs.Beside.{AreNames};
ghost use Rattle.sl_terminal_commands.specs.Comparisons.{IsComparisonOf, compared_words, library_words};
ghost use Rattle.sl_terminal_commands.specs.Said.{IsSaid};
ghost use Rattle.sl_terminal_commands.specs.inner.Comparing.{IsComparedAnswer, IsComparedOn};
ghost use Rattle.sl_terminal_commands.specs.inner.Digested.{called_digests};

use crate::answered::Answered;
use crate::commands::Commands;
use crate::comparing::compare;
use crate::failure::Failure;
use crate::manner::{Manner, called_inputs};
use crate::reports::Writing;
use crate::statutes::{library_words, statutes_of};
use crate::sums::{NamedBook, NamedReturns};
use crate::varied::methods_of;
use sl_base_quotients::{Method, NoMemory};
use sl_count_inputs::DeskError;
use sl_report_commands::{Answer, Forms, FullNames, Style};
use sl_terminal_outside::Outside;
use std::alloc::Global;

// Puts rulebooks side by side, also with each of these methods, in a style.
fn compare_in<F: Forms>(
    forms: &F,
    alloc: Global,
    books: Vec<NamedBook<'_>>,
    methods: &[Method],
    returns: &NamedReturns<'_>,
    names: Result<FullNames, Answer>,
    style: Style,
) -> Result<Answered, NoMemory>
    ensures { IfOk result (IsComparedAnswer (F.is_text forms.now) style (json_digests style (called_digests books.entry.items returns.now)) (is_err names) books.entry.items
        methods.now returns.now.read.verdict) }
{
    let inputs = called_inputs(alloc, books.as_slice(), returns, style)?;
    let manner = Manner {
        forms,
        style,
        inputs: inputs.as_slice(),
    };
    compare(alloc, books, methods, returns, names, &manner)
}

impl<O: Outside> Commands<'_, O> {
    // Puts rulebooks that were read side by side, also with these methods, with the full names of a file if one is given.
    fn compare_read<'a, F: Forms>(
        &self,
        forms: &F,
        books: Vec<NamedBook<'_>>,
        methods: &[Method],
        returns: &NamedReturns<'_>,
        writing: Writing<'a>,
    ) -> Result<Answered, Failure<'a, O::Reason>>
        ensures { IfOk result (λ a. (is_refused : Bool) × AreNames (O.bytes self.now.outside.now) (option_map (λ path. path.now) writing.entry.names) is_refused
            × IsComparedAnswer (F.is_text forms.now) writing.entry.style (json_digests writing.entry.style (called_digests books.entry.items returns.now)) is_refused
            books.entry.items methods.now returns.now.read.verdict a) }
    {
        match self.full_names(writing.names) {
            Ok(names) => {
                let (alloc, style) = (self.alloc, writing.style);
                Ok(compare_in(forms, alloc, books, methods, returns, names, style)?)
            }
            Err(failure) => Err(failure),
        }
    }

    // Puts the rulebooks of some words side by side.
    fn compare_given<'a, F: Forms>(
        &self,
        forms: &F,
        books: &[&'a str],
        methods: &[Method],
        returns: &NamedReturns<'_>,
        writing: Writing<'a>,
    ) -> Result<Answered, Failure<'a, O::Reason>>
        ensures { IfOk result (IsComparedOn (F.is_text forms.now) (O.bytes self.now.outside.now) (map (λ word. word.now) books.now) methods.now returns.now writing.entry) }
    {
        match self.books_at(books) {
            Ok(books) => self.compare_read(forms, books, methods, returns, writing),
            Err(failure) => Err(failure),
        }
    }

    // Puts the statutes of the library side by side.
    fn compare_statutes<'a, F: Forms>(
        &self,
        forms: &F,
        methods: &[Method],
        returns: &NamedReturns<'_>,
        writing: Writing<'a>,
    ) -> Result<Answered, Failure<'a, O::Reason>>
        ensures { IfOk result (IsComparedOn (F.is_text forms.now) (O.bytes self.now.outside.now) library_words methods.now returns.now writing.entry) }
    {
        let words = match library_words(self.alloc) {
            Ok(words) => words,
            Err(NoMemory) => return Err(Failure::Call(DeskError::NoMemory)),
        };
        match statutes_of(self.alloc, words.as_slice()) {
            Ok(books) => self.compare_read(forms, books, methods, returns, writing),
            Err(NoMemory) => Err(Failure::Call(DeskError::NoMemory)),
        }
    }

    // Puts the rulebooks of some words side by side, or the statutes of the library where there are none.
    fn compare_words<'a, F: Forms>(
        &self,
        forms: &F,
        books: &[&'a str],
        methods: &[Method],
        returns: &NamedReturns<'_>,
        writing: Writing<'a>,
    ) -> Result<Answered, Failure<'a, O::Reason>>
        ensures { IfOk result (IsComparedOn (F.is_text forms.now) (O.bytes self.now.outside.now) (compared_words (map (λ word. word.now) books.now)) methods.now
            returns.now writing.entry) }
    {
        if books.is_empty() {
            self.compare_statutes(forms, methods, returns, writing)
        } else {
            self.compare_given(forms, books, methods, returns, writing)
        }
    }

    /// Puts the rulebooks of some words side by side, or the statutes of the library where there are none, also with the methods of other words.
    pub(crate) fn report_comparison<'a, F: Forms>(
        &self,
        forms: &F,
        returns: &'a str,
        books: &[&'a str],
        methods: &[&'a str],
        writing: Writing<'a>,
    ) -> Result<Answered, Failure<'a, O::Reason>>
        ensures { IfOk result (λ a. IsComparisonOf (F.is_text forms.now) (O.bytes self.now.outside.now) returns.now (map (λ word. word.now) books.now)
            (map (λ word. word.now) methods.now) (option_map (λ path. path.now) writing.entry.names) writing.entry.style a.status a.text.items
            (λ s. IsSaid writing.entry.style.language s a.said.items)) }
    {
        let methods = methods_of(self.alloc, methods)?;
        match self.returns_at(returns) {
            Ok(read) => {
                let methods = methods.as_slice();
                let answered = self.compare_words(forms, books, methods, &read, writing);
                drop(read);
                answered
            }
            Err(failure) => Err(failure),
        }
    }
}

//! What the commands that report answer, over files: each input is read and judged once, and each rulebook is run once.

ghost use Rattle.std.specs.Borrow.{Bor};
ghost use Rattle.std.specs.Prelude.{◌≡◌, ◌<◌, ◌^◌, ◌||◌, [], Bool, IfErr, IfOk, List, None, Option, false, is_err, option_map};
ghost use Rattle.sl_count_calls.specs.Fitting.{FitsJudged};
ghost use Rattle.sl_count_calls.specs.Judged.{IsJudged};
ghost use Rattle.sl_count_calls.specs.Reading.{HasTexts};
ghost use Rattle.sl_explain_calls.specs.Codes.{subject_of};
ghost use Rattle.sl_law_meaning.specs.declared.count.Records.TheVariants.{Kept};
ghost use Rattle.sl_count_inputs.specs.Reading.{ForKnown};
ghost use Rattle.sl_count_inputs.specs.declared.status.Status.TheVariants as status;
ghost use Rattle.sl_terminal_outside.specs.Inputs.{named_input};
ghost use Rattle.sl_report_commands.specs.Written.{shown_subject};
ghost use Rattle.sl_report_parties.specs.declared.earlier.EarlierParty.{EarlierParty as Party};
ghost use Rattle.sl_report_tables.specs.Reports.{beside};
ghost use Rattle.sl_terminal_commands.specs.Beside.{AreNames};
ghost use Rattle.sl_terminal_commands.specs.Requests.{IsReportOf, IsReported, style_of};
ghost use Rattle.sl_terminal_commands.specs.Said.{AreWarnings, IsSaid, report_said};
ghost use Rattle.sl_terminal_commands.specs.Tellings.{warns_of};
ghost use Rattle.sl_terminal_commands.specs.inner.Digested.{word_bytes};
ghost use Rattle.sl_terminal_commands.specs.inner.Reports.{AreBesideIn, IsReadFrom, IsReportAnswer, IsReportBeside};

use crate::answered::{Answered, counted, files_of, reported, told_text, warnings_text};
use crate::commands::Commands;
use crate::failure::Failure;
use sl_base_quotients::NoMemory;
use sl_count_calls::{Read, Records, judge_read};
use sl_count_inputs::{BookText, Bytes, Input, read_all};
use sl_explain_texts::Language;
use sl_report_commands::{
    Answer, EarlierParty, Forms, FullNames, MAX_BEFORE_BYTES, MAX_NAMES_BYTES, Shape, Show, Style,
    Texts, Written, earlier_in, names_in, show_judged,
};
use sl_terminal_outside::{Outside, open, open_book};
use sl_terminal_words::Report;
use std::alloc::Global;

// How a report is written: with the names of a file and beside the earlier seat table of one, where they are given, in a form and in a language.
#[derive(Clone, Copy)]
pub(crate) struct Writing<'a> {
    pub(crate) names: Option<&'a str>,
    pub(crate) before: Option<&'a str>,
    pub(crate) style: Style,
}

// The paths of a rulebook and of returns.
#[derive(Clone, Copy)]
pub(crate) struct Paths<'a> {
    pub(crate) book: &'a str,
    pub(crate) returns: &'a str,
}

// The bytes of the rulebook of a word: those of the library's after `@`, and else those that were read.
pub(crate) fn book_bytes<'a>(word: &'a str, read: &'a [u8]) -> &'a [u8]
    ensures { result.now ≡ word_bytes word.now read.now }
{
    match word.strip_prefix('@') {
        Some(name) => BookText::Library(name).bytes(),
        None => read,
    }
}

// The names and the earlier table, or the answer that refuses the first of them that is refused.
fn first_refusal<'a>(
    names: Result<FullNames, Answer>,
    earlier: Result<Option<Vec<EarlierParty<'a>>>, Answer>,
) -> (Result<FullNames, Answer>, Option<Vec<EarlierParty<'a>>>)
    ensures which { is_err result.0 ≡ (is_err names || is_err earlier.entry) }
    ensures earlier { IfOk earlier.entry (λ found. result.1 ≡ found) }
{
    match earlier {
        Ok(earlier) => (names, earlier),
        Err(refusal) => match names {
            Ok(_) => (Err(refusal), None),
            Err(first) => (Err(first), None),
        },
    }
}

// What is said of a report of a count that was read: why there is no table, what is likely a mistake, or nothing where names are refused.
fn said_of_report(
    alloc: Global,
    language: Language,
    is_refused: bool,
    written: &Written,
    read: &Read<'_>,
    paths: Paths<'_>,
) -> Result<Vec<u8>, NoMemory>
    requires { option_map subject_of written.now.told ≡ shown_subject is_refused read.now.judged }
    ensures { IfOk result (λ text. IsSaid language (report_said is_refused read.now.judged) text.items) }
{
    match counted(&read.judged) {
        Some(counting) if !is_refused => {
            let book = Some(&counting.book.book);
            warnings_text(alloc, language, book, &counting.returns)
        }
        _ => {
            let files = files_of(paths.book, paths.returns, read);
            told_text(alloc, language, &files, &written.told)
        }
    }
}

// What a report of a count that was read answers.
fn report_with<F: Forms>(
    forms: &F,
    alloc: Global,
    show: Show<'_>,
    read: &Read<'_>,
    names: &Result<FullNames, Answer>,
    paths: Paths<'_>,
    style: Style,
) -> Result<Answered, NoMemory>
    requires fits { FitsJudged Kept read.now.judged }
    ensures { IfOk result (IsReportAnswer (F.is_text forms.now) show.entry (is_err names.now) paths.entry.book.now read.now style) }
{
    let texts = Texts {
        book: book_bytes(paths.book, read.book.as_slice()),
        returns: read.returns.as_slice(),
    };
    let written = show_judged(forms, alloc, show, &read.judged, names, texts, style)?;
    match said_of_report(alloc, style.language, names.is_err(), &written, read, paths) {
        Ok(said) => Ok(reported(alloc, written, said)),
        Err(NoMemory) => Err(NoMemory),
    }
}

// The parties of an earlier table, if one was read.
fn slice_of<'a, 'b>(earlier: &'b Option<Vec<EarlierParty<'a>>>) -> Option<&'b [EarlierParty<'a>]>
    ensures { option_map (λ all. all.now) result ≡ option_map (λ all. all.items) earlier.now }
{
    match earlier {
        Some(found) => Some(found.as_slice()),
        None => None,
    }
}

// What a report of a count that was read answers, beside an earlier table.
fn report_beside<F: Forms>(
    forms: &F,
    alloc: Global,
    show: Show<'_>,
    read: &Read<'_>,
    names: Result<FullNames, Answer>,
    table: &Option<Bytes>,
    paths: Paths<'_>,
    style: Style,
) -> Result<Answered, NoMemory>
    requires fits { FitsJudged Kept read.now.judged }
    ensures { IfOk result (IsReportBeside (F.is_text forms.now) show.entry (is_err names) table.now paths.entry.book.now read.now style) }
{
    match earlier_in(alloc, table) {
        Ok(earlier) => {
            let (names, earlier) = first_refusal(names, earlier);
            let show = show.beside(slice_of(&earlier));
            report_with(forms, alloc, show, read, &names, paths, style)
        }
        Err(NoMemory) => Err(NoMemory),
    }
}

impl<O: Outside> Commands<'_, O> {
    // The bytes of a file in addition to the inputs of a count, if one is given.
    fn read_beside<'a>(
        &self,
        path: Option<&'a str>,
        input: Input,
        limit: usize,
    ) -> Result<Option<Bytes>, Failure<'a, O::Reason>>
        requires { limit < 2 ^ 32 }
        ensures read { IfOk result (λ read. IsReadFrom (O.bytes self.now.outside.now) (option_map (λ path. path.now) path.entry) limit read) }
    {
        let Some(path) = path else {
            return Ok(None);
        };
        let mut file = open(self.outside, path, input)?;
        Ok(Some(read_all(self.alloc, &mut file, input, limit)?))
    }

    // The full names of a file, if one is given, or the answer that refuses them.
    pub(crate) fn full_names<'a>(
        &self,
        path: Option<&'a str>,
    ) -> Result<Result<FullNames, Answer>, Failure<'a, O::Reason>>
        ensures { IfOk result (λ full. AreNames (O.bytes self.now.outside.now) (option_map (λ path. path.now) path.entry) (is_err full)) }
    {
        let read = self.read_beside(path, Input::Names, MAX_NAMES_BYTES)?;
        Ok(names_in(self.alloc, &read)?)
    }

    // What a rulebook and returns come to, with the records of a count.
    fn judged_at<'a>(
        &self,
        book: &'a str,
        returns: &'a str,
    ) -> Result<Read<'a>, Failure<'a, O::Reason>>
        ensures judged { IfOk result (λ read. ForKnown (named_input (O.bytes self.now.outside.now) book.now) (O.bytes self.now.outside.now returns.now) (λ input bytes.
            IsJudged Kept None input bytes read.judged)) }
        ensures fits { IfOk result (λ read. FitsJudged Kept read.judged) }
        ensures text { IfOk result (HasTexts (named_input (O.bytes self.now.outside.now) book.now) (O.bytes self.now.outside.now returns.now)) }
    {
        let mut source = open_book(self.outside, book)?;
        let mut file = open(self.outside, returns, Input::Returns)?;
        Ok(judge_read(Records::Kept, self.alloc, &mut source, None, &mut file)?)
    }

    // What a report of a count that was read answers, with what is read beside it.
    fn report_read<'a, F: Forms>(
        &self,
        forms: &F,
        show: Show<'_>,
        read: &Read<'_>,
        paths: Paths<'a>,
        writing: Writing<'a>,
    ) -> Result<Answered, Failure<'a, O::Reason>>
        requires fits { FitsJudged Kept read.now.judged }
        ensures { IfOk result (λ a. (is_refused : Bool) × (found : Option (Bor (List Party)))
            × AreBesideIn (O.bytes self.now.outside.now) writing.entry is_refused found
            × IsReportAnswer (F.is_text forms.now) (beside found show.entry) is_refused paths.entry.book.now read.now writing.entry.style a) }
    {
        let names = self.full_names(writing.names)?;
        match self.read_beside(writing.before, Input::Before, MAX_BEFORE_BYTES) {
            Ok(table) => {
                let style = writing.style;
                let answered = report_beside(
                    forms, self.alloc, show, read, names, &table, paths, style,
                );
                drop(table);
                Ok(answered?)
            }
            Err(failure) => Err(failure),
        }
    }

    // What a report of a rulebook on returns answers.
    fn report_count<'a, F: Forms>(
        &self,
        forms: &F,
        show: Show<'_>,
        book: &'a str,
        returns: &'a str,
        writing: Writing<'a>,
    ) -> Result<Answered, Failure<'a, O::Reason>>
        ensures answer { IfOk result (λ a. IsReportOf (F.is_text forms.now) (O.bytes self.now.outside.now) show.entry book.now returns.now
            (option_map (λ path. path.now) writing.entry.names) (option_map (λ path. path.now) writing.entry.before) writing.entry.style a.status a.text.items
            (λ s. IsSaid writing.entry.style.language s a.said.items)) }
        ensures done { IfOk result (λ a. a.status ≡ status.Done → AreWarnings writing.entry.style.language a.said.items) }
    {
        match self.judged_at(book, returns) {
            Ok(read) => {
                let paths = Paths { book, returns };
                let answered = self.report_read(forms, show, &read, paths, writing);
                drop(read);
                answered
            }
            Err(failure) => Err(failure),
        }
    }

    /// What a report answers.
    pub(crate) fn report<'a, F: Forms>(
        &self,
        forms: &F,
        what: &Report<'a>,
        form: Shape,
        names: Option<&'a str>,
    ) -> Result<Answered, Failure<'a, O::Reason>>
        ensures output { IfOk result (λ a. IsReported (F.is_text forms.now) (O.bytes self.now.outside.now) what.now (option_map (λ path. path.now) names.entry)
            (style_of form self.now.language) a.status a.text.items (λ s. IsSaid self.now.language s a.said.items)) }
        ensures done { IfOk result (λ a. a.status ≡ status.Done → AreWarnings self.now.language a.said.items) }
        ensures still { warns_of what.now ≡ false → IfOk result (λ a. a.status ≡ status.Done → a.said.items ≡ []) }
    {
        let writing = Writing {
            names,
            before: None,
            style: Style {
                shape: form,
                language: self.language,
            },
        };
        match what {
            Report::Seats { book, returns } => {
                self.report_count(forms, Show::Seats, *book, *returns, writing)
            }
            Report::Steps { book, returns } => {
                self.report_count(forms, Show::Steps, *book, *returns, writing)
            }
            Report::Count { book, returns } => {
                self.report_count(forms, Show::Report, *book, *returns, writing)
            }
            Report::Short {
                book,
                returns,
                before,
            } => {
                let writing = Writing {
                    before: *before,
                    ..writing
                };
                self.report_count(forms, Show::Short(None), *book, *returns, writing)
            }
            Report::Stages { book, returns } => {
                self.report_count(forms, Show::Stages, *book, *returns, writing)
            }
            Report::Totals { returns, book } => {
                self.report_totals(forms, *returns, *book, writing)
            }
            Report::Compare {
                returns,
                books,
                methods,
            } => {
                let methods = methods.as_slice();
                self.report_comparison(forms, *returns, books.as_slice(), methods, writing)
            }
        }
    }
}

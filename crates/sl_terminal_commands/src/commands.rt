//! What the commands that do not report answer, over files. Each judges its inputs once.

ghost use Rattle.std.specs.Prelude.{◌≡◌, [], IfOk, IfSome, Some};
ghost use Rattle.sl_count_calls.specs.Shows.{IsShownOutput};
ghost use Rattle.sl_count_calls.specs.Suiting.{IsFor};
ghost use Rattle.sl_count_calls.specs.Views.{IsAnswerOf, records_for, stage_of};
ghost use Rattle.sl_count_calls.specs.Fitting.{FitsJudged as FitsCount};
ghost use Rattle.sl_count_calls.specs.Judged.{IsJudged};
ghost use Rattle.sl_desk.specs.Checking.{IsCheck, IsCheckOutput};
ghost use Rattle.sl_desk.specs.JudgedRuns.{FitsJudged, IsJudged as IsJudgedRun, IsRunAnswer};
ghost use Rattle.sl_desk.specs.Running.{IsRunCode};
ghost use Rattle.sl_explain_texts.specs.declared.code.FaultCode.TheVariants.{B01};
ghost use Rattle.sl_explain_calls.specs.Codes.{check_subject, run_subject, subject};
ghost use Rattle.sl_count_inputs.specs.Judging.{tree_verdict};
ghost use Rattle.sl_count_inputs.specs.Library.{IsLawOutput, unknown_law};
ghost use Rattle.sl_count_inputs.specs.Reading.{ForKnown};
ghost use Rattle.sl_count_inputs.specs.declared.status.Input.TheVariants as input;
ghost use Rattle.sl_count_inputs.specs.declared.status.Status.TheVariants as status;
ghost use Rattle.sl_terminal_outside.specs.Inputs.{named_input};
ghost use Rattle.sl_terminal_commands.specs.Requests.{IsAnswerTo, IsShown};
ghost use Rattle.sl_terminal_commands.specs.Said.{AreWarnings, IsSaid, fault, judged_said, said_of};
ghost use Rattle.sl_terminal_commands.specs.Tellings.{IsOfBook, IsOfCount, IsOfRun, law_said, shown_records, shown_stage};
ghost use Rattle.sl_terminal_commands.specs.inner.Outcomes.{IsAnswered, IsOutcomeOf};

use crate::answered::{
    Answered, ReadFile, alone, check_text, count_text, explained_text, run_text, with_said,
};
use crate::failure::Failure;
use crate::speech::Speech;
use sl_base_quotients::NoMemory;
use sl_count_calls::{Answer, Read, View, answer_of, judge_read};
use sl_count_inputs::{Input, ReadBook, RefusedBook, Status, refused};
use sl_desk::{ReadRun, check_answer, judge_run, run_answer};
use sl_explain_calls::{Lost, explain_book};
use sl_explain_texts::{FaultCode, Language};
use sl_laws::law;
use sl_report_commands::Forms;
use sl_terminal_outside::{Outside, open, open_book};
use sl_terminal_words::{Request, Show};
use std::alloc::Global;

// What a count that was read answers.
fn count_answered(
    alloc: Global,
    language: Language,
    view: View<'_>,
    read: &Read<'_>,
    book: &str,
    returns: &str,
) -> Result<Answered, NoMemory>
    requires { IsFor view read.now.judged }
    ensures output { IfOk result (λ a. IsAnswerOf view.entry read.now.judged a.status a.text.items) }
    ensures said { IfOk result (λ a. IsSaid language (judged_said read.now.judged) a.said.items) }
    ensures done { IfOk result (λ a. a.status ≡ status.Done → AreWarnings language a.said.items) }
{
    let said = count_text(alloc, language, book, returns, read)?;
    match answer_of(view, alloc, &read.judged) {
        Ok(answer) => Ok(with_said(alloc, answer, said)),
        Err(NoMemory) => Err(NoMemory),
    }
}

// What checking a rulebook that was read answers.
fn check_answered(
    alloc: Global,
    language: Language,
    read: &ReadBook<'_>,
    book: &str,
) -> Result<Answered, NoMemory>
    ensures output { IfOk result (λ a. IsCheck (tree_verdict read.now.verdict) a.status a.text.items) }
    ensures said { IfOk result (λ a. IsSaid language (said_of (check_subject read.now.verdict)) a.said.items) }
    ensures done { IfOk result (λ a. a.status ≡ status.Done → a.said.items ≡ []) }
{
    let said = check_text(alloc, language, book, read)?;
    match check_answer(alloc, &read.verdict) {
        Ok(answer) => Ok(with_said(alloc, answer, said)),
        Err(NoMemory) => Err(NoMemory),
    }
}

// What running a code file on returns answers, which were read.
fn run_answered(
    alloc: Global,
    language: Language,
    read: &ReadRun,
    code: &str,
    returns: &str,
) -> Result<Answered, NoMemory>
    requires { FitsJudged read.now.judged }
    ensures output { IfOk result (λ a. IsRunAnswer read.now.judged a.status a.text.items) }
    ensures said { IfOk result (λ a. IsSaid language (said_of (run_subject read.now.judged)) a.said.items) }
    ensures done { IfOk result (λ a. a.status ≡ status.Done → a.said.items ≡ []) }
{
    let said = run_text(alloc, language, code, returns, read)?;
    match run_answer(alloc, &read.judged) {
        Ok(answer) => Ok(with_said(alloc, answer, said)),
        Err(NoMemory) => Err(NoMemory),
    }
}

// That the library has no statute of a name, as it is explained.
fn unknown_text(alloc: Global, language: Language, name: &str) -> Result<Vec<u8>, NoMemory>
    ensures { IfOk result (λ text. IsSaid language (fault (subject input.Book (Some B01))) text.items) }
{
    let file = ReadFile {
        input: Input::Book,
        path: name,
        bytes: b"",
    };
    let refused = RefusedBook::UnknownStatute(name);
    let explained = explain_book(alloc, language, b"", &refused)?;
    explained_text(alloc, language, &[file], &explained)
}

// The line that refuses the name of a statute, and why.
fn unknown_answered(alloc: Global, language: Language, name: &str) -> Result<Answered, NoMemory>
    ensures status { IfOk result (λ a. a.status ≡ status.Refused) }
    ensures line { IfOk result (λ a. a.text.items ≡ unknown_law name.now) }
    ensures said { IfOk result (λ a. IsSaid language (fault (subject input.Book (Some B01))) a.said.items) }
{
    let said = unknown_text(alloc, language, name)?;
    match refused(alloc, b"law", name.as_bytes()) {
        Ok(line) => Ok(with_said(alloc, Answer::refused(line), said)),
        Err(NoMemory) => Err(NoMemory),
    }
}

// What writing a statute of the library answers.
fn law_answered(alloc: Global, language: Language, name: &str) -> Result<Answered, NoMemory>
    ensures output { IfOk result (λ a. IsLawOutput name.now a.status a.text.items) }
    ensures said { IfOk result (λ a. IsSaid language (law_said name.now) a.said.items) }
    ensures done { IfOk result (λ a. a.status ≡ status.Done → a.said.items ≡ []) }
{
    match law(name) {
        Some(text) => {
            let text = Vec::from_slice(alloc, text.as_bytes())?;
            Ok(alone(alloc, Status::Done, text))
        }
        None => unknown_answered(alloc, language, name),
    }
}

/// What a request comes to.
#[derive(Drop)]
pub(crate) enum Outcome<'a> {
    /// It is answered.
    Answered(Answered),
    /// It would lose the file at a path.
    Spared(&'a str, Lost),
}

// An answer, if there is one.
fn answered<'a, E: Drop>(
    given: Result<Answered, Failure<'a, E>>,
) -> Result<Outcome<'a>, Failure<'a, E>>
    ensures { IsAnswered given.entry result }
{
    match given {
        Ok(answered) => Ok(Outcome::Answered(answered)),
        Err(failure) => Err(failure),
    }
}

/// The commands over what lies outside, in a language.
#[derive(Drop)]
pub(crate) struct Commands<'o, O> {
    pub(crate) outside: &'o O,
    pub(crate) alloc: Global,
    pub(crate) language: Language,
}

impl<O: Outside> Commands<'_, O> {
    // What a rulebook and returns come to, as it is to be shown.
    fn counted_at<'a>(
        &self,
        view: View<'a>,
        book: &'a str,
        returns: &'a str,
    ) -> Result<Read<'a>, Failure<'a, O::Reason>>
        ensures judged { IfOk result (λ read. ForKnown (named_input (O.bytes self.now.outside.now) book.now) (O.bytes self.now.outside.now returns.now) (λ input bytes.
            IsJudged (records_for view.entry) (stage_of view.entry) input bytes read.judged)) }
        ensures fits { IfOk result (λ read. FitsCount (records_for view.entry) read.judged) }
    {
        let mut source = open_book(self.outside, book)?;
        let mut file = open(self.outside, returns, Input::Returns)?;
        Ok(judge_read(
            view.records(),
            self.alloc,
            &mut source,
            view.stage(),
            &mut file,
        )?)
    }

    // What a count answers.
    fn count<'a>(
        &self,
        view: View<'a>,
        book: &'a str,
        returns: &'a str,
    ) -> Result<Answered, Failure<'a, O::Reason>>
        ensures output { IfOk result (λ a. ForKnown (named_input (O.bytes self.now.outside.now) book.now) (O.bytes self.now.outside.now returns.now) (λ input bytes.
            IsShownOutput view.entry input bytes a.status a.text.items)) }
        ensures said { IfOk result (λ a. IsOfCount (O.bytes self.now.outside.now) (records_for view.entry) (stage_of view.entry) book.now returns.now (λ s. IsSaid self.now.language s a.said.items)) }
        ensures done { IfOk result (λ a. a.status ≡ status.Done → AreWarnings self.now.language a.said.items) }
    {
        match self.counted_at(view, book, returns) {
            Ok(read) => {
                let answered = count_answered(
                    self.alloc,
                    self.language,
                    view,
                    &read,
                    book,
                    returns,
                );
                drop(read);
                Ok(answered?)
            }
            Err(failure) => Err(failure),
        }
    }

    // What is asked for of a count.
    fn show_count<'a>(
        &self,
        show: Show<'a>,
        book: &'a str,
        returns: &'a str,
    ) -> Result<Answered, Failure<'a, O::Reason>>
        ensures output { IfOk result (λ a. ForKnown (named_input (O.bytes self.now.outside.now) book.now) (O.bytes self.now.outside.now returns.now) (λ input bytes.
            IsShown show.entry input bytes a.status a.text.items)) }
        ensures said { IfOk result (λ a. IsOfCount (O.bytes self.now.outside.now) (shown_records show.entry) (shown_stage show.entry) book.now returns.now (λ s. IsSaid self.now.language s a.said.items)) }
        ensures done { IfOk result (λ a. a.status ≡ status.Done → AreWarnings self.now.language a.said.items) }
    {
        match show {
            Show::Seats => self.count(View::Seats, book, returns),
            Show::Steps => self.count(View::Steps, book, returns),
            Show::Stage(name) => self.count(View::Stage(name), book, returns),
        }
    }

    // What checking a rulebook answers.
    fn check<'a>(&self, book: &'a str) -> Result<Answered, Failure<'a, O::Reason>>
        ensures output { IfOk result (λ a. IfSome (named_input (O.bytes self.now.outside.now) book.now) (λ input.
            IsCheckOutput input a.status a.text.items)) }
        ensures said { IfOk result (λ a. IsOfBook (O.bytes self.now.outside.now) book.now (λ s. IsSaid self.now.language s a.said.items)) }
        ensures done { IfOk result (λ a. a.status ≡ status.Done → a.said.items ≡ []) }
    {
        match self.book_at(book) {
            Ok(named) => {
                let answered = check_answered(self.alloc, self.language, &named.read, book);
                drop(named);
                Ok(answered?)
            }
            Err(failure) => Err(failure),
        }
    }

    // What a code file and returns come to.
    fn run_at<'a>(&self, code: &'a str, returns: &'a str) -> Result<ReadRun, Failure<'a, O::Reason>>
        ensures judged { IfOk result (λ read. ForKnown (O.bytes self.now.outside.now code.now) (O.bytes self.now.outside.now returns.now) (λ file bytes.
            IsJudgedRun file bytes read.judged)) }
        ensures fits { IfOk result (λ read. FitsJudged read.judged) }
    {
        let mut source = open(self.outside, code, Input::Code)?;
        let mut file = open(self.outside, returns, Input::Returns)?;
        Ok(judge_run(self.alloc, &mut source, &mut file)?)
    }

    // What running a code file on returns answers.
    fn run_code<'a>(
        &self,
        code: &'a str,
        returns: &'a str,
    ) -> Result<Answered, Failure<'a, O::Reason>>
        ensures output { IfOk result (λ a. ForKnown (O.bytes self.now.outside.now code.now) (O.bytes self.now.outside.now returns.now) (λ file bytes.
            IsRunCode file bytes a.status a.text.items)) }
        ensures said { IfOk result (λ a. IsOfRun (O.bytes self.now.outside.now) code.now returns.now (λ s. IsSaid self.now.language s a.said.items)) }
        ensures done { IfOk result (λ a. a.status ≡ status.Done → a.said.items ≡ []) }
    {
        match self.run_at(code, returns) {
            Ok(read) => {
                let answered = run_answered(self.alloc, self.language, &read, code, returns);
                drop(read);
                Ok(answered?)
            }
            Err(failure) => Err(failure),
        }
    }

    // What there is to say of the code of a fault.
    fn explain<'a, S: Speech>(
        &self,
        speech: &S,
        code: FaultCode,
    ) -> Result<Answered, Failure<'a, O::Reason>>
        ensures status { IfOk result (λ a. a.status ≡ status.Done) }
        ensures text { IfOk result (λ a. S.is_about speech.now self.now.language code a.text.items) }
        ensures said { IfOk result (λ a. a.said.items ≡ []) }
    {
        let text = speech.about(self.alloc, self.language, code)?;
        Ok(alone(self.alloc, Status::Done, text))
    }

    // What a statute of the library answers.
    fn law<'a>(&self, name: &'a str) -> Result<Answered, Failure<'a, O::Reason>>
        ensures output { IfOk result (λ a. IsLawOutput name.now a.status a.text.items) }
        ensures said { IfOk result (λ a. IsSaid self.now.language (law_said name.now) a.said.items) }
        ensures done { IfOk result (λ a. a.status ≡ status.Done → a.said.items ≡ []) }
    {
        Ok(law_answered(self.alloc, self.language, name)?)
    }

    /// What a request comes to, from the files that it names. Nothing is written.
    pub(crate) fn answer<'a, F: Forms, S: Speech>(
        &self,
        forms: &F,
        speech: &S,
        request: Request<'a>,
    ) -> Result<Outcome<'a>, Failure<'a, O::Reason>>
        ensures { IfOk result (IsOutcomeOf (F.is_text forms.now) (S.is_about speech.now) self.now.language (O.bytes self.now.outside.now) request.entry) }
    {
        match request {
            Request::Count {
                show,
                book,
                returns,
            } => answered(self.show_count(show, book, returns)),
            Request::Check { book } => answered(self.check(book)),
            Request::Code {
                book,
                file,
                is_forced,
            } => self.code(book, file, is_forced),
            Request::Run { code, returns } => answered(self.run_code(code, returns)),
            Request::Law { name } => answered(self.law(name)),
            Request::Explain { code } => answered(self.explain(speech, code)),
            Request::Report { what, form, names } => answered(self.report(
                forms, &what, form, names,
            )),
        }
    }
}

//! The texts of answers: in JSON with the digests of the inputs, and with the explanation of why there is no table.

ghost use Rattle.std.specs.Prelude.{◌≡◌, ◌++◌, IfOk, OnOk, Some, option_map};
ghost use Rattle.sl_explain_calls.specs.Codes.{book_code, election_code, judged_subject, subject, subject_of};
ghost use Rattle.sl_count_inputs.specs.Books.{book_line};
ghost use Rattle.sl_count_inputs.specs.Judging.{refusal_of as why_of, returns_refusal_of};
ghost use Rattle.sl_count_inputs.specs.Returns.{returns_line};
ghost use Rattle.sl_count_inputs.specs.declared.status.Input.TheVariants as input;
ghost use Rattle.sl_report_commands.specs.Digests.{digests, is_json};
ghost use Rattle.sl_report_commands.specs.Written.{IsWritten, command_of, json_digests};
ghost use Rattle.sl_report_commands.specs.inner.Digested.{IsCountWritten, book_digested, count_digested, digest_of, refusal_of, returns_digested, text_of};
ghost use Rattle.sl_report_tables.specs.Answers.{IsRefusedBy};

use crate::forms::Forms;
use sl_base_quotients::NoMemory;
use sl_count_calls::Judged;
use sl_count_inputs::{DeskError, Input, RefusedBook, RefusedElection, Verdict};
use sl_explain_calls::{Explained, explain_book, explain_election, explain_judged};
use sl_explain_texts::{Explanation, Language};
use sl_report_forms::{DigestedInput, Heading, Names, Shape, Told, json_text};
use sl_report_tables::{Answer, Show};
use std::alloc::Global;

// The exit status after an error.
const FAILED: u8 = 5;

/// How an answer is written: in a form and in a language. In JSON and in CSV only sentences are in the language.
#[derive(Clone, Copy)]
pub struct Style {
    pub shape: Shape,
    pub language: Language,
}

impl Style {
    /// Whether it is JSON, which alone has digests and explanations.
    pub fn is_json(self) -> bool
        ensures { result ≡ is_json self.shape }
    {
        matches!(self.shape, Shape::Json)
    }
}

/// An answer with its text, and why there is no table, if there is none for a fault of an input.
#[derive(Drop)]
pub struct Written {
    pub answer: Answer,
    pub text: Vec<u8>,
    pub told: Option<Explained>,
}

/// The bytes of a rulebook and of returns.
#[derive(Clone, Copy)]
pub struct Texts<'a> {
    pub book: &'a [u8],
    pub returns: &'a [u8],
}

impl<'a> Texts<'a> {
    /// Those of a kind of input, and none of any other.
    pub fn of(self, input: Input) -> &'a [u8]
        ensures { result.now ≡ text_of input self.entry.book.now self.entry.returns.now }
    {
        match input {
            Input::Book => self.book,
            Input::Returns => self.returns,
            Input::Code | Input::Names | Input::Before => b"",
        }
    }
}

/// Why a verdict refuses, if it does.
pub fn refusal_of<T, R>(verdict: &Verdict<T, R>) -> Option<&R>
    ensures { option_map (λ r. r.now) result ≡ refusal_of verdict.now }
{
    match verdict {
        Verdict::Good(_) => None,
        Verdict::Refused(refused) => Some(refused),
    }
}

/// The digest of a rulebook, or `None` where it has no bytes: it is too long, or there is no statute of its name.
pub fn digested_book(
    word: Option<String>,
    bytes: &[u8],
    refused: Option<&RefusedBook<'_>>,
) -> Option<DigestedInput>
    ensures { digest_of result ≡ book_digested (option_map (λ r. r.now) refused.entry) bytes.now }
{
    match refused {
        Some(RefusedBook::TooLong | RefusedBook::UnknownStatute(_)) => None,
        Some(_) | None => Some(DigestedInput::new(Input::Book.word(), word, bytes)),
    }
}

/// The digest of returns, or `None` where they have no bytes: they are too long.
pub fn digested_returns(bytes: &[u8], refused: Option<&RefusedElection>) -> Option<DigestedInput>
    ensures { digest_of result ≡ returns_digested (option_map (λ r. r.now) refused.entry) bytes.now }
{
    match refused {
        Some(RefusedElection::TooLong) => None,
        Some(RefusedElection::Records(_)) | None => {
            Some(DigestedInput::new(Input::Returns.word(), None, bytes))
        }
    }
}

/// Adds an input, if it has a digest.
pub fn push_digested(
    inputs: &mut Vec<DigestedInput>,
    input: Option<DigestedInput>,
) -> Result<(), NoMemory>
    ensures { OnOk result (digests inputs.new.items ≡ digests inputs.old.items ++ digest_of input) }
{
    if let Some(input) = input {
        inputs.push(input)?;
    }
    Ok(())
}

// The inputs of a count that were read whole, with their digests. After a refused rulebook no returns are read.
fn digested(
    alloc: Global,
    judged: &Judged<'_>,
    texts: Texts<'_>,
) -> Result<Vec<DigestedInput>, NoMemory>
    ensures { IfOk result (λ inputs. digests inputs.items ≡ count_digested judged.now texts.entry.book.now texts.entry.returns.now) }
{
    let (book, returns) = match judged {
        Judged::BookRefused(refused) => (digested_book(None, texts.book, Some(refused)), None),
        Judged::StageUnknown(_, _) => (digested_book(None, texts.book, None), None),
        Judged::ReturnsRefused(refused) => (
            digested_book(None, texts.book, None),
            digested_returns(texts.returns, Some(refused)),
        ),
        Judged::Counted(_) => (
            digested_book(None, texts.book, None),
            digested_returns(texts.returns, None),
        ),
    };
    let mut inputs = Vec::new(alloc);
    push_digested(&mut inputs, book)?;
    push_digested(&mut inputs, returns)?;
    Ok(inputs)
}

/// Why there is no table, with the bytes of the input that it speaks of.
#[derive(Drop)]
pub struct Reason<'a> {
    pub explained: Explained,
    pub bytes: &'a [u8],
}

/// An answer, and of a refusal the reason.
#[derive(Drop)]
pub struct Reasoned<'a> {
    pub answer: Answer,
    pub reason: Option<Reason<'a>>,
}

impl<'a> Reasoned<'a> {
    /// The answer that refuses an input of these bytes by a line, for a reason.
    pub(crate) fn refused(
        alloc: Global,
        line: Vec<u8>,
        explained: Explained,
        bytes: &'a [u8],
    ) -> Reasoned<'a>
        ensures refused { IsRefusedBy line.items result.answer }
        ensures told { option_map (λ r. subject_of r.explained) result.reason ≡ Some (subject_of explained) }
    {
        Reasoned {
            answer: Answer::refused(alloc, line),
            reason: Some(Reason { explained, bytes }),
        }
    }

    /// The answer that refuses a book of these bytes.
    pub fn refused_book(
        alloc: Global,
        language: Language,
        bytes: &'a [u8],
        refused: &RefusedBook<'_>,
    ) -> Result<Reasoned<'a>, NoMemory>
        ensures refused { IfOk result (λ r. IsRefusedBy (book_line (why_of refused.now)) r.answer) }
        ensures told { IfOk result (λ r. option_map (λ r. subject_of r.explained) r.reason ≡ Some (subject input.Book (book_code refused.now))) }
    {
        let explained = explain_book(alloc, language, bytes, refused)?;
        let line = refused.why().line(alloc)?;
        Ok(Reasoned::refused(alloc, line, explained, bytes))
    }

    /// The answer that refuses returns of these bytes.
    pub fn refused_returns(
        alloc: Global,
        language: Language,
        bytes: &'a [u8],
        refused: &RefusedElection,
    ) -> Result<Reasoned<'a>, NoMemory>
        ensures refused { IfOk result (λ r. IsRefusedBy (returns_line (returns_refusal_of refused.now)) r.answer) }
        ensures told { IfOk result (λ r. option_map (λ r. subject_of r.explained) r.reason ≡ Some (subject input.Returns (election_code refused.now))) }
    {
        let explained = explain_election(alloc, language, bytes, refused)?;
        let line = refused.why().line(alloc)?;
        Ok(Reasoned::refused(alloc, line, explained, bytes))
    }

    // The text of the answer of a command, in JSON with the digests of these inputs.
    fn text<F: Forms>(
        &self,
        forms: &F,
        alloc: Global,
        command: &'static str,
        style: Style,
        inputs: &[DigestedInput],
    ) -> Result<Vec<u8>, NoMemory>
        ensures { IfOk result (λ text. IsWritten (F.is_text forms.now) command.now style (digests inputs.now) self.now.answer text.items) }
    {
        let told = self.reason.as_ref().map(Reason::told);
        text_by(forms, alloc, command, style, &self.answer, inputs, told)
    }

    /// The answer of a command with its text, in JSON with the digests of these inputs.
    pub(crate) fn written<F: Forms>(
        self,
        forms: &F,
        alloc: Global,
        command: &'static str,
        style: Style,
        inputs: &[DigestedInput],
    ) -> Result<Written, NoMemory>
        ensures answer { IfOk result (λ w. w.answer ≡ self.entry.answer) }
        ensures text { IfOk result (λ w. IsWritten (F.is_text forms.now) command.now style (digests inputs.now) w.answer w.text.items) }
        ensures told { IfOk result (λ w. option_map subject_of w.told ≡ option_map (λ r. subject_of r.explained) self.entry.reason) }
    {
        match self.text(forms, alloc, command, style, inputs) {
            Ok(text) => Ok(self.with_text(text)),
            Err(NoMemory) => Err(NoMemory),
        }
    }

    // The answer with this text.
    fn with_text(self, text: Vec<u8>) -> Written
        ensures answer { result.answer ≡ self.entry.answer }
        ensures text { result.text ≡ text }
        ensures told { option_map subject_of result.told ≡ option_map (λ r. subject_of r.explained) self.entry.reason }
    {
        let Reasoned { answer, reason } = self;
        let told = explained_in(reason);
        Written { answer, text, told }
    }
}

// What was explained, if anything was.
fn explained_in(reason: Option<Reason<'_>>) -> Option<Explained>
    ensures { option_map subject_of result ≡ option_map (λ r. subject_of r.explained) reason.entry }
{
    match reason {
        Some(Reason { explained, .. }) => Some(explained),
        None => None,
    }
}

impl Reason<'_> {
    // What is told of it.
    pub(crate) fn told(&self) -> Told<'_> {
        told_of(&self.explained, self.bytes)
    }
}

/// What is told of what was explained, with the bytes of its input.
pub fn told_of<'a>(explained: &'a Explained, bytes: &'a [u8]) -> Told<'a> {
    Told {
        input: explained.input.word(),
        bytes,
        explanation: &explained.explanation,
    }
}

/// The text of the answer of a command by some forms; in JSON with the digests of these inputs, and with what is told, if anything is.
pub fn text_by<F: Forms>(
    forms: &F,
    alloc: Global,
    command: &'static str,
    style: Style,
    answer: &Answer,
    inputs: &[DigestedInput],
    told: Option<Told<'_>>,
) -> Result<Vec<u8>, NoMemory>
    ensures { IfOk result (λ text. IsWritten (F.is_text forms.now) command.now style (digests inputs.now) answer.now text.items) }
{
    let heading = Heading {
        command,
        language: style.language,
        inputs,
        told,
    };
    forms.text(alloc, style.shape, &heading, answer)
}

// The input, or the output, of which an error speaks.
fn subject_of(error: DeskError) -> Option<&'static str> {
    match error {
        DeskError::Read(input) => Some(input.word()),
        DeskError::Write => Some("output"),
        DeskError::NoMemory => None,
    }
}

/// The JSON of a command that ended with an error: its line, and what is explained of it, if anything is. It has no tables.
pub fn failed_text(
    alloc: Global,
    command: &'static str,
    language: Language,
    error: DeskError,
    explained: Option<&Explanation>,
) -> Result<Vec<u8>, NoMemory> {
    let told = match (subject_of(error), explained) {
        (Some(input), Some(explanation)) => Some(Told {
            input,
            bytes: b"",
            explanation,
        }),
        (_, _) => None,
    };
    let heading = Heading {
        command,
        language,
        inputs: &[],
        told,
    };
    let line = format!(in alloc; "{error}")?;
    let names = Names::none(alloc);
    let text = json_text(alloc, &heading, FAILED, Some(line.as_str()), &names, &[])?;
    Ok(text.into_bytes())
}

// The word of the command that shows a count.
fn command_of(show: Show<'_>) -> &'static str
    ensures { result.now ≡ command_of show.entry }
{
    match show {
        Show::Seats => "count",
        Show::Steps => "steps",
        Show::Report => "report",
        Show::Short(_) => "report --short",
        Show::Stages => "stages",
    }
}

// The digests of the inputs of a count, which JSON has alone.
fn digested_in(
    alloc: Global,
    judged: &Judged<'_>,
    texts: Texts<'_>,
    style: Style,
) -> Result<Vec<DigestedInput>, NoMemory>
    ensures { IfOk result (λ inputs. digests inputs.items ≡ json_digests style (count_digested judged.now texts.entry.book.now texts.entry.returns.now)) }
{
    if style.is_json() {
        digested(alloc, judged, texts)
    } else {
        Ok(Vec::new(alloc))
    }
}

// What is told of what was explained, if anything was, with the bytes of its input.
fn told_in<'a>(explained: &'a Option<Explained>, texts: Texts<'a>) -> Option<Told<'a>> {
    match explained {
        Some(explained) => Some(told_of(explained, texts.of(explained.input))),
        None => None,
    }
}

// The text of an answer on what a rulebook and returns of these texts come to, with what was explained of it.
fn shown_text<F: Forms>(
    forms: &F,
    alloc: Global,
    show: Show<'_>,
    answer: &Answer,
    explained: &Option<Explained>,
    judged: &Judged<'_>,
    texts: Texts<'_>,
    style: Style,
) -> Result<Vec<u8>, NoMemory>
    ensures { IfOk result (λ text. IsCountWritten (F.is_text forms.now) show.entry style judged.now texts.entry.book.now texts.entry.returns.now answer.now text.items) }
{
    let inputs = digested_in(alloc, judged, texts, style)?;
    let told = told_in(explained, texts);
    let command = command_of(show);
    let text = text_by(
        forms,
        alloc,
        command,
        style,
        answer,
        inputs.as_slice(),
        told,
    );
    drop(inputs);
    text
}

/// An answer on what a rulebook and returns of these texts come to, with its text, and with what was explained of it.
pub(crate) fn with_text<F: Forms>(
    forms: &F,
    alloc: Global,
    show: Show<'_>,
    answer: Answer,
    told: Option<Explained>,
    judged: &Judged<'_>,
    texts: Texts<'_>,
    style: Style,
) -> Result<Written, NoMemory>
    ensures answer { IfOk result (λ w. w.answer ≡ answer) }
    ensures text { IfOk result (λ w. IsCountWritten (F.is_text forms.now) show.entry style judged.now texts.entry.book.now texts.entry.returns.now w.answer w.text.items) }
    ensures told { IfOk result (λ w. w.told ≡ told) }
{
    match shown_text(forms, alloc, show, &answer, &told, judged, texts, style) {
        Ok(text) => Ok(Written { answer, text, told }),
        Err(NoMemory) => Err(NoMemory),
    }
}

/// An answer on what a rulebook and returns of these texts come to, with its text, and with why there is no table, if there is none.
pub(crate) fn with_reason<F: Forms>(
    forms: &F,
    alloc: Global,
    show: Show<'_>,
    answer: Answer,
    judged: &Judged<'_>,
    texts: Texts<'_>,
    style: Style,
) -> Result<Written, NoMemory>
    ensures answer { IfOk result (λ w. w.answer ≡ answer) }
    ensures text { IfOk result (λ w. IsCountWritten (F.is_text forms.now) show.entry style judged.now texts.entry.book.now texts.entry.returns.now w.answer w.text.items) }
    ensures told { IfOk result (λ w. option_map subject_of w.told ≡ judged_subject judged.now) }
{
    match explain_judged(alloc, style.language, judged, texts.book, texts.returns) {
        Ok(told) => with_text(forms, alloc, show, answer, told, judged, texts, style),
        Err(NoMemory) => Err(NoMemory),
    }
}

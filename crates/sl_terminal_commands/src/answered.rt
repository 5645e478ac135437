//! What a command answers, as a value: nothing is written here.

ghost use Rattle.std.specs.Option.{option_map};
ghost use Rattle.std.specs.Prelude.{◌≡◌, [], IfOk, MatchOption, Some};
ghost use Rattle.sl_explain_calls.specs.Codes.{check_subject, judged_subject, run_subject, subject_of};
ghost use Rattle.sl_law_meaning.specs.book.Books.{book_of};
ghost use Rattle.sl_report_warnings.specs.Heads.{warning_lines};
ghost use Rattle.sl_report_warnings.specs.Warnings.{warnings_of};
ghost use Rattle.sl_terminal_commands.specs.Said.{IsSaid, fault, judged_said, said_of, warned};

use sl_base_quotients::NoMemory;
use sl_count_calls::{Answer, Counting, End, Judged, Read};
use sl_count_inputs::{Input, ReadBook, Status};
use sl_desk::{Compilation, ReadRun};
use sl_explain_calls::{Explained, explain_check, explain_read, explain_run};
use sl_explain_texts::{Language, written};
use sl_report_commands::Written;
use sl_report_warnings::warnings_of;
use sl_stages::{Book, Returns};
use std::alloc::Global;

/// What a command answers: its status, what it writes to standard output, what it says on standard error, which may be nothing, and the bytes of the file
/// that it makes, if it makes one.
#[derive(Drop)]
pub struct Answered {
    pub status: Status,
    pub text: Vec<u8>,
    pub said: Vec<u8>,
    pub made: Vec<u8>,
}

/// An answer with what is said of it.
pub(crate) fn with_said(alloc: Global, answer: Answer, said: Vec<u8>) -> Answered
    ensures status { result.status ≡ answer.status }
    ensures text { result.text ≡ answer.text }
    ensures said { result.said ≡ said }
{
    Answered {
        status: answer.status,
        text: answer.text,
        said,
        made: Vec::new(alloc),
    }
}

/// What compiling writes, with what is said of it.
pub(crate) fn compiled(compilation: Compilation, said: Vec<u8>) -> Answered
    ensures status { result.status ≡ compilation.answer.status }
    ensures text { result.text ≡ compilation.answer.text }
    ensures made { result.made ≡ compilation.file }
    ensures said { result.said ≡ said }
{
    let Compilation { file, answer } = compilation;
    Answered {
        status: answer.status,
        text: answer.text,
        said,
        made: file,
    }
}

/// What a command that reports answers, with what is said of it.
pub(crate) fn reported(alloc: Global, written: Written, said: Vec<u8>) -> Answered
    ensures status { result.status ≡ written.answer.status }
    ensures text { result.text ≡ written.text }
    ensures said { result.said ≡ said }
{
    let Written { answer, text, told } = written;
    drop(told);
    Answered {
        status: answer.status,
        text,
        said,
        made: Vec::new(alloc),
    }
}

/// A text with this status, of which nothing is said.
pub(crate) fn alone(alloc: Global, status: Status, text: Vec<u8>) -> Answered
    ensures status { result.status ≡ status }
    ensures text { result.text ≡ text }
    ensures said { result.said.items ≡ [] }
{
    Answered {
        status,
        text,
        said: Vec::new(alloc),
        made: Vec::new(alloc),
    }
}

/// A file of a command: the input that it is, its path as the command's line has it, and what was read of it.
#[derive(Clone, Copy)]
pub(crate) struct ReadFile<'a> {
    pub(crate) input: Input,
    pub(crate) path: &'a str,
    pub(crate) bytes: &'a [u8],
}

/// The count to which inputs came, if it has a table.
pub(crate) fn counted<'a>(judged: &'a Judged<'_>) -> Option<&'a Counting>
    ensures { MatchOption result (judged_said judged.now ≡ said_of (judged_subject judged.now))
        (λ c. judged_said judged.now ≡ warned c.now.returns (warnings_of (Some (book_of c.now.book.book)) c.now.returns)) }
{
    match judged {
        Judged::Counted(counting) => match &counting.outcome.end {
            End::Counted(_) => Some(counting),
            End::Fault(_) => None,
        },
        Judged::BookRefused(_) => None,
        Judged::StageUnknown(_, _) => None,
        Judged::ReturnsRefused(_) => None,
    }
}

/// What is likely a mistake in returns, and with a rulebook in the two together, as lines.
pub(crate) fn warnings_text(
    alloc: Global,
    language: Language,
    book: Option<&Book>,
    returns: &Returns,
) -> Result<Vec<u8>, NoMemory>
    ensures { IfOk result (λ text. text.items ≡ warning_lines language returns.now (warnings_of (option_map (λ b. book_of b.now) book.entry) returns.now)) }
{
    let warnings = warnings_of(alloc, book, returns)?;
    sl_report_warnings::written(alloc, language, returns, warnings.as_slice())
}

/// What was explained, of that one of the files of whose input it speaks.
pub(crate) fn explained_text(
    alloc: Global,
    language: Language,
    files: &[ReadFile<'_>],
    told: &Explained,
) -> Result<Vec<u8>, NoMemory>
    ensures { IfOk result (λ text. IsSaid language (fault (subject_of told.now)) text.items) }
{
    let input = told.input;
    let file = files.iter().copied().find(|file| file.input == input);
    match file {
        Some(file) => {
            let path = Some(file.path.as_bytes());
            written(alloc, language, path, file.bytes, &told.explanation)
        }
        None => written(alloc, language, None, b"", &told.explanation),
    }
}

/// What was explained, if anything was.
pub(crate) fn told_text(
    alloc: Global,
    language: Language,
    files: &[ReadFile<'_>],
    told: &Option<Explained>,
) -> Result<Vec<u8>, NoMemory>
    ensures { IfOk result (λ text. IsSaid language (said_of (option_map subject_of told.now)) text.items) }
{
    match told {
        Some(told) => explained_text(alloc, language, files, told),
        None => Ok(Vec::new(alloc)),
    }
}

/// Why a rulebook that was read is refused, if it is.
pub(crate) fn check_text(
    alloc: Global,
    language: Language,
    path: &str,
    read: &ReadBook<'_>,
) -> Result<Vec<u8>, NoMemory>
    ensures { IfOk result (λ text. IsSaid language (said_of (check_subject read.now.verdict)) text.items) }
{
    let file = ReadFile {
        input: Input::Book,
        path,
        bytes: read.text.as_slice(),
    };
    let told = explain_check(alloc, language, read)?;
    told_text(alloc, language, &[file], &told)
}

/// A rulebook and returns that were read, at these paths.
pub(crate) fn files_of<'a>(
    book: &'a str,
    returns: &'a str,
    read: &'a Read<'_>,
) -> [ReadFile<'a>; 2] {
    [
        ReadFile {
            input: Input::Book,
            path: book,
            bytes: read.book.as_slice(),
        },
        ReadFile {
            input: Input::Returns,
            path: returns,
            bytes: read.returns.as_slice(),
        },
    ]
}

// Why a rulebook and returns that were read yield no table.
fn fault_text(
    alloc: Global,
    language: Language,
    book: &str,
    returns: &str,
    read: &Read<'_>,
) -> Result<Vec<u8>, NoMemory>
    ensures { IfOk result (λ text. IsSaid language (said_of (judged_subject read.now.judged)) text.items) }
{
    let files = files_of(book, returns, read);
    let told = explain_read(alloc, language, read)?;
    told_text(alloc, language, &files, &told)
}

/// Why a rulebook and returns that were read yield no table, if they don't, or what is likely a mistake in them.
pub(crate) fn count_text(
    alloc: Global,
    language: Language,
    book: &str,
    returns: &str,
    read: &Read<'_>,
) -> Result<Vec<u8>, NoMemory>
    ensures { IfOk result (λ text. IsSaid language (judged_said read.now.judged) text.items) }
{
    match counted(&read.judged) {
        Some(counting) => {
            let book = Some(&counting.book.book);
            warnings_text(alloc, language, book, &counting.returns)
        }
        None => fault_text(alloc, language, book, returns, read),
    }
}

/// Why a code file and returns that were read were not run to a table, if they were not.
pub(crate) fn run_text(
    alloc: Global,
    language: Language,
    code: &str,
    returns: &str,
    read: &ReadRun,
) -> Result<Vec<u8>, NoMemory>
    ensures { IfOk result (λ text. IsSaid language (said_of (run_subject read.now.judged)) text.items) }
{
    let files = [
        ReadFile {
            input: Input::Code,
            path: code,
            bytes: read.file.as_slice(),
        },
        ReadFile {
            input: Input::Returns,
            path: returns,
            bytes: read.returns.as_slice(),
        },
    ];
    let told = explain_run(alloc, language, read)?;
    told_text(alloc, language, &files, &told)
}

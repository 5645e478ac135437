//! Files that cannot be opened, read or written.

ghost use Rattle.std.specs.Prelude.{◌≡◌, IfOk, IfSome, None};
ghost use Rattle.sl_explain_texts.specs.Explainers.{Keeps};
ghost use Rattle.sl_explain_texts.specs.Messages.{IsFilledBy};

use crate::texts;
use sl_base_quotients::NoMemory;
use sl_count_inputs::{DeskError, Input};
use sl_explain_texts::{Explainer, Explanation, Language, Message, Speaker};
use sl_laws::law;
use std::alloc::Global;

// The message that says which input cannot be opened.
fn unopened(input: Input) -> &'static Message
    ensures { IsFilledBy result.now 2 }
{
    match input {
        Input::Book => &texts::NO_BOOK,
        Input::Returns => &texts::NO_RETURNS,
        Input::Code => &texts::NO_CODE,
        Input::Names => &texts::NO_NAMES,
        Input::Before => &texts::NO_BEFORE,
    }
}

// Whether a command takes the returns before the rulebook.
fn takes_returns_first(command: &str) -> bool {
    command == "totals" || command == "compare"
}

// What to do about a path.
fn advice(input: Input, path: &str) -> &'static Message
    ensures { IsFilledBy result.now 1 }
{
    if input == Input::Book && law(path).is_some() {
        &texts::LIBRARY
    } else if path == "-" {
        &texts::STANDARD_INPUT
    } else if path.starts_with("file:") {
        &texts::SCHEME
    } else if path.starts_with("~") || path.contains("*") {
        &texts::SHELL
    } else if path.contains("\\") {
        &texts::BACKSLASH
    } else {
        &texts::PATH
    }
}

// Adds what is said of the order of the words of a command, where they seem to stand in the wrong one, or what to do about a path.
fn help_path(explainer: &mut Explainer, command: &str, input: Input, path: &str)
    ensures { Keeps explainer.old explainer.new }
{
    let (word, name) = (command.as_bytes(), path.as_bytes());
    let is_first = takes_returns_first(command);
    match input {
        Input::Book if path.ends_with(".csv") && is_first => {
            explainer.helps(&texts::RETURNS_THEN_BOOK, &[word, word])
        }
        Input::Book if path.ends_with(".csv") => {
            explainer.helps(&texts::BOOK_THEN_RETURNS, &[word, word])
        }
        Input::Returns if path.starts_with("@") && is_first => {
            explainer.helps(&texts::RETURNS_FIRST, &[name, word, word, name])
        }
        Input::Returns if path.starts_with("@") && command != "run" => {
            explainer.helps(&texts::BOOK_FIRST, &[name, word, word, name])
        }
        Input::Returns if command == "stage" && !path.contains(".") => {
            explainer.helps(&texts::NAME_LAST, &[name])
        }
        Input::Code if path.starts_with("@") => explainer.helps(&texts::NO_CODE_FILE, &[name]),
        _ => explainer.helps(advice(input, path), &[name]),
    }
}

/// Why an input of a command cannot be opened, with the reason that the system gives.
pub fn explain_opening(
    alloc: Global,
    language: Language,
    command: &str,
    input: Input,
    path: &str,
    reason: &str,
) -> Result<Explanation, NoMemory>
    ensures { IfOk result (λ x. x.code ≡ None) }
{
    let speaker = Speaker { alloc, language };
    let values = [path.as_bytes(), reason.as_bytes()];
    let mut explainer = speaker.tells(unopened(input), &values);
    help_path(&mut explainer, command, input, path);
    explainer.finished()
}

// The message that says which input cannot be read.
fn unread(input: Input) -> &'static Message
    ensures { IsFilledBy result.now 0 }
{
    match input {
        Input::Book => &texts::UNREAD_BOOK,
        Input::Returns => &texts::UNREAD_RETURNS,
        Input::Code => &texts::UNREAD_CODE,
        Input::Names => &texts::UNREAD_NAMES,
        Input::Before => &texts::UNREAD_BEFORE,
    }
}

/// Why a call failed: an input that was opened and cannot be read, or an output; `None` where memory ran out.
pub fn explain_failure(
    alloc: Global,
    language: Language,
    error: DeskError,
) -> Result<Option<Explanation>, NoMemory>
    ensures { IfOk result (λ told. IfSome told (λ x. x.code ≡ None)) }
{
    let speaker = Speaker { alloc, language };
    let explainer = match error {
        DeskError::Read(input) => speaker
            .tells(unread(input), &[])
            .helped(&texts::FOLDER, &[]),
        DeskError::Write => speaker
            .tells(&texts::UNWRITTEN, &[])
            .helped(&texts::FULL, &[]),
        DeskError::NoMemory => return Ok(None),
    };
    Ok(Some(explainer.finished()?))
}

/// Why a file cannot be written, with the reason that the system gives.
pub fn explain_writing(
    alloc: Global,
    language: Language,
    path: &str,
    reason: &str,
) -> Result<Explanation, NoMemory>
    ensures { IfOk result (λ x. x.code ≡ None) }
{
    let speaker = Speaker { alloc, language };
    let values = [path.as_bytes(), reason.as_bytes()];
    let explainer = speaker.tells(&texts::NO_OUTPUT, &values);
    explainer.helped(&texts::PATH, &[]).finished()
}

/// The bytes that writing a code file would lose.
#[derive(Clone, Copy)]
pub enum Lost {
    /// Those of the rulebook that is compiled.
    Rulebook,
    /// Those of another file, which is no code file.
    Other,
}

// What is said of a file that would be lost, and what to do.
fn lost_texts(lost: Lost) -> (&'static Message, &'static Message)
    ensures { IsFilledBy result.0.now 1 × IsFilledBy result.1.now 0 }
{
    match lost {
        Lost::Rulebook => (&texts::LOST_BOOK, &texts::ANOTHER),
        Lost::Other => (&texts::LOST, &texts::FORCE),
    }
}

/// Why a code file is not written over the file at a path.
pub fn explain_kept(
    alloc: Global,
    language: Language,
    path: &str,
    lost: Lost,
) -> Result<Explanation, NoMemory>
    ensures { IfOk result (λ x. x.code ≡ None) }
{
    let speaker = Speaker { alloc, language };
    let (sentence, remedy) = lost_texts(lost);
    let explainer = speaker.tells(sentence, &[path.as_bytes()]);
    explainer.helped(remedy, &[]).finished()
}

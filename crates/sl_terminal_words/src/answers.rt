//! What is said of words that ask for no command: a help, the version, or why they are refused.

ghost use Rattle.std.specs.Prelude.{◌≡◌, IfOk};
ghost use Rattle.clap.specs.Words.{kind_of};
ghost use Rattle.sl_terminal_words.specs.inner.Replies.{IsRefusal, IsText, Tells};

use crate::help::{Form, PROGRAM, command_of, named};
use crate::hints::hint_of;
use crate::page::{push_ending, push_page, push_usage};
use crate::refusals::{refusal, sentence_in, tips_in};
use crate::texts::answers::NO_MEMORY;
use crate::texts::refusals::TIP;
use clap::error::ErrorKind;
use clap::{Command, Error};
use sl_base_quotients::NoMemory;
use sl_explain_texts::{Language, Message, Speaker, append};
use std::alloc::{AllocError, Global};

/// What is said of words that ask for no command.
#[derive(Drop)]
pub enum Answer {
    /// A help, or the version.
    Shown(Vec<u8>),
    /// Why they are refused.
    Refused(Vec<u8>),
    /// Memory ran out while they were read.
    NoMemory(Language),
}

/// What is said where memory ran out while words were read.
pub fn out_of_memory(language: Language) -> &'static str {
    language.text(&NO_MEMORY)
}

// The command of whose help words ask: the one that they begin with, or the one after `help`, or the program; `None` for that of `help` itself.
fn helped(words: &[String]) -> Option<&'static Form> {
    let first = words.get(1).map_or("", |word| word.as_str());
    match words.get(2) {
        Some(word) if first == "help" => named(word.as_str()),
        _ => Some(command_of(words).unwrap_or(&PROGRAM)),
    }
}

// Adds to the English page of `clap` the end of a help, or in place of it writes the whole help in another language.
fn finish_help(
    text: &mut String,
    alloc: Global,
    language: Language,
    words: &[String],
) -> Result<(), AllocError> {
    let form = helped(words);
    if language != Language::English {
        text.clear();
        push_page(text, alloc, language, form.unwrap_or(&PROGRAM))?;
    }
    match form {
        Some(form) => push_ending(text, alloc, language, form),
        None => Ok(()),
    }
}

// A help: in English the page of `clap`, and its end.
fn help(
    alloc: Global,
    language: Language,
    words: &[String],
    mut page: String,
) -> Result<Answer, NoMemory>
    ensures { IfOk result IsText }
{
    finish_help(&mut page, alloc, language, words)?;
    Ok(Answer::Shown(page.into_bytes()))
}

// How a command is called.
fn usage_of(alloc: Global, language: Language, form: &Form) -> Result<String, AllocError> {
    let mut text = String::new(alloc);
    push_usage(&mut text, language, form)?;
    Ok(text)
}

// How the program is called: in English as `clap` says it, with the name by which it was called.
fn usage_of_program(speaker: Speaker, program: &mut Command<'_>) -> Result<String, AllocError> {
    match speaker.language {
        Language::English => program.render_usage(),
        language => usage_of(speaker.alloc, language, &PROGRAM),
    }
}

// How the command is called that words begin with, or the program.
fn usage(
    speaker: Speaker,
    words: &[String],
    program: &mut Command<'_>,
) -> Result<String, AllocError> {
    match command_of(words) {
        Some(form) => usage_of(speaker.alloc, speaker.language, form),
        None => usage_of_program(speaker, program),
    }
}

/// A refusal with a sentence of this program.
pub(crate) fn refuse(
    alloc: Global,
    language: Language,
    program: &mut Command<'_>,
    sentence: &Message,
) -> Result<Answer, NoMemory>
    ensures { IfOk result IsRefusal }
{
    let speaker = Speaker { alloc, language };
    let usage = usage_of_program(speaker, program)?;
    let sentence = language.text(sentence).as_bytes();
    let text = refusal(speaker, sentence, &[], usage.as_bytes())?;
    Ok(Answer::Refused(text))
}

// The words of a refusal, without its usage and what `clap` would try.
fn sentence_of(text: &str) -> &str {
    let text = text.strip_prefix("error: ").unwrap_or(text);
    match text.split_once("\n\n") {
        Some((sentence, _)) => sentence,
        None => text,
    }
}

// Whether a refusal names a command that is near.
fn names_near(kind: ErrorKind, text: &str) -> bool {
    kind == ErrorKind::InvalidSubcommand && text.contains("similar")
}

// What to do about words that `clap` refuses, with an empty line before it: what this program says of them, or else what `clap` would try.
fn tips(
    speaker: Speaker,
    words: &[String],
    kind: ErrorKind,
    text: &str,
) -> Result<Option<Vec<u8>>, NoMemory> {
    if !names_near(kind, text) {
        if let Some(hint) = hint_of(speaker, words, kind)? {
            let mut tips = Vec::from_slice(speaker.alloc, b"\n")?;
            let line = speaker.text(&TIP, &[hint.as_slice()])?;
            append(&mut tips, &[line.as_slice()])?;
            return Ok(Some(tips));
        }
    }
    match speaker.language {
        Language::English => Ok(None),
        Language::German => Ok(Some(tips_in(speaker, text)?)),
    }
}

// A refusal by `clap`: its own English text, if there is nothing to add.
fn refuse_by(
    speaker: Speaker,
    words: &[String],
    program: &mut Command<'_>,
    error: &Error,
) -> Result<Answer, NoMemory>
    ensures { IfOk result IsRefusal }
{
    let text = format!(in speaker.alloc; "{error}")?;
    let Some(tips) = tips(speaker, words, error.kind(), text.as_str())? else {
        return Ok(Answer::Refused(text.into_bytes()));
    };
    let sentence = sentence_in(speaker, sentence_of(text.as_str()))?;
    let usage = usage(speaker, words, program)?;
    let (sentence, tips) = (sentence.as_slice(), tips.as_slice());
    let text = refusal(speaker, sentence, tips, usage.as_bytes())?;
    Ok(Answer::Refused(text))
}

/// What is said where `clap` gives no matches of words.
pub(crate) fn answer_to(
    alloc: Global,
    language: Language,
    words: &[String],
    program: &mut Command<'_>,
    error: &Error,
) -> Result<Answer, NoMemory>
    ensures { IfOk result (Tells (kind_of error.now)) }
{
    match error.kind() {
        ErrorKind::OutOfMemory => Err(NoMemory),
        ErrorKind::DisplayVersion => {
            Ok(Answer::Shown(format!(in alloc; "{error}")?.into_bytes()))
        }
        ErrorKind::DisplayHelp => help(alloc, language, words, format!(in alloc; "{error}")?),
        _ => refuse_by(Speaker { alloc, language }, words, program, error),
    }
}

//! What the words of a command line come to, as a value: nothing is written here.

ghost use Rattle.std.specs.Prelude.{◌≡◌, ◌⊎◌, [], IfOk, None, map, option_map, string_bytes, unwrap_or};
ghost use Rattle.sl_terminal_commands.specs.Files.{made_at};
ghost use Rattle.sl_terminal_commands.specs.Replies.{IsReplied, IsReplyOf, IsReplyTo, IsSaidOf, IsStopped, file_of, heard};
ghost use Rattle.sl_terminal_commands.specs.Requests.{IsAnswerTo};
ghost use Rattle.sl_terminal_commands.specs.inner.Outcomes.{IsOutcomeOf, RepliesTo};

use crate::answered::Answered;
use crate::commands::{Commands, Outcome};
use crate::failure::Failure;
use crate::speech::Speech;
use crate::telling::{Said, Speaker};
use sl_base_quotients::NoMemory;
use sl_explain_texts::Language;
use sl_report_commands::{Forms, Shape};
use sl_terminal_outside::Outside;
use sl_terminal_words::{Answer, Asked, Request, out_of_memory, request_of};
use std::alloc::Global;
use std::fmt::Display;

/// A file that a command makes: its path, and its bytes.
#[derive(Drop)]
pub struct Made {
    pub path: String,
    pub bytes: Vec<u8>,
}

/// What words come to, before anything is written: the exit status, the text for standard output, what is said on standard error, and the file that is
/// made, if one is.
#[derive(Drop)]
pub struct Reply {
    pub number: u8,
    pub out: Vec<u8>,
    pub said: Said,
    pub made: Option<Made>,
    // How it is told that it cannot be written; it is not where words ask for no command.
    pub(crate) speaker: Option<Speaker>,
}

// What is said of an answer, unless explanations are off.
fn heard(alloc: Global, is_quiet: bool, said: Vec<u8>) -> Vec<u8>
    ensures { result.items ≡ heard is_quiet said.items }
{
    if is_quiet { Vec::new(alloc) } else { said }
}

// The file of an answer, if there is a path for one.
fn file_made(path: Option<String>, bytes: Vec<u8>) -> Option<Made>
    ensures { option_map file_of result ≡ option_map (λ path. (path, bytes.items)) (option_map string_bytes path) }
{
    match path {
        Some(path) => Some(Made { path, bytes }),
        None => None,
    }
}

impl Reply {
    // That of an answer, whose file has this path.
    fn answered(alloc: Global, path: Option<String>, answered: Answered, speaker: Speaker) -> Reply
        ensures { IsReplied speaker.is_quiet (option_map string_bytes path) answered result }
    {
        let Answered {
            status,
            text,
            said,
            made: bytes,
        } = answered;
        Reply {
            number: status.number(),
            out: text,
            said: Said::Text(heard(alloc, speaker.is_quiet, said)),
            made: file_made(path, bytes),
            speaker: Some(speaker),
        }
    }

    // That of a command that was not completed.
    fn stopped<E: Display + Drop>(alloc: Global, failure: Failure<'_, E>, speaker: Speaker) -> Reply
        ensures { (result.number ≡ 5) × (result.out.items ≡ []) × (result.made ≡ None) }
    {
        let said = speaker.failure(alloc, &failure);
        drop(failure);
        Reply::alone(alloc, 5, said, speaker)
    }

    // One that only says something.
    fn alone(alloc: Global, number: u8, said: Said, speaker: Speaker) -> Reply
        ensures { (result.number ≡ number) × (result.out.items ≡ []) × (result.made ≡ None) }
    {
        Reply {
            number,
            out: Vec::new(alloc),
            said,
            made: None,
            speaker: Some(speaker),
        }
    }

    // That of what a request comes to, whose file has this path.
    fn of_outcome(
        alloc: Global,
        path: Option<String>,
        outcome: Outcome<'_>,
        speaker: Speaker,
    ) -> Reply
        ensures { RepliesTo speaker.is_quiet (option_map string_bytes path) outcome.entry result }
    {
        match outcome {
            Outcome::Answered(answered) => Reply::answered(alloc, path, answered, speaker),
            Outcome::Spared(path, lost) => {
                Reply::alone(alloc, 1, speaker.spared(alloc, path, lost), speaker)
            }
        }
    }

    // That of words that ask for no command: a help or the version, or why they are refused.
    fn of_words(alloc: Global, answer: Answer) -> Reply
        ensures { IsSaidOf answer result }
    {
        let (number, out, said) = match answer {
            Answer::Shown(text) => (0, text, Said::Fixed("")),
            Answer::Refused(text) => (1, Vec::new(alloc), Said::Text(text)),
            Answer::NoMemory(language) => {
                (1, Vec::new(alloc), Said::Fixed(out_of_memory(language)))
            }
        };
        Reply {
            number,
            out,
            said,
            made: None,
            speaker: None,
        }
    }
}

// Whether it is a report in JSON.
fn is_json(request: &Request<'_>) -> bool {
    matches!(
        request,
        Request::Report {
            form: Shape::Json,
            ..
        }
    )
}

// The path of the file that a request makes, if it makes one.
fn path_made(alloc: Global, request: &Request<'_>) -> Result<Option<String>, NoMemory>
    ensures { IfOk result (λ path. option_map string_bytes path ≡ made_at request.now) }
{
    match request {
        Request::Code { file, .. } => Ok(Some(String::from_str(alloc, file)?)),
        _ => Ok(None),
    }
}

impl<'o, O: Outside> Commands<'o, O> {
    // The same commands, in the language that is asked for.
    fn speaking(&self, language: Option<Language>) -> Commands<'o, O>
        ensures outside { result.outside ≡ self.now.outside }
        ensures language { result.language ≡ unwrap_or language self.now.language }
    {
        Commands {
            outside: self.outside,
            alloc: self.alloc,
            language: language.unwrap_or(self.language),
        }
    }

    // What a request comes to, and the path of the file that it makes.
    fn answer_made<'a, F: Forms, S: Speech>(
        &self,
        forms: &F,
        speech: &S,
        request: Request<'a>,
    ) -> Result<(Option<String>, Outcome<'a>), Failure<'a, O::Reason>>
        ensures path { IfOk result (λ found. option_map string_bytes found.0 ≡ made_at request.entry) }
        ensures outcome { IfOk result (λ found. IsOutcomeOf (F.is_text forms.now) (S.is_about speech.now) self.now.language (O.bytes self.now.outside.now) request.entry found.1) }
    {
        let path = path_made(self.alloc, &request)?;
        match self.answer(forms, speech, request) {
            Ok(outcome) => Ok((path, outcome)),
            Err(failure) => Err(failure),
        }
    }

    // What a request comes to.
    fn reply_in<F: Forms, S: Speech>(
        &self,
        forms: &F,
        speech: &S,
        request: Request<'_>,
        speaker: Speaker,
    ) -> Reply
        ensures { ((a : Answered) × IsAnswerTo (F.is_text forms.now) (S.is_about speech.now) self.now.language (O.bytes self.now.outside.now) request.entry a
            × IsReplied speaker.is_quiet (made_at request.entry) a result) ⊎ IsStopped (O.bytes self.now.outside.now) request.entry result }
    {
        match self.answer_made(forms, speech, request) {
            Ok((path, outcome)) => Reply::of_outcome(self.alloc, path, outcome, speaker),
            Err(failure) => Reply::stopped(self.alloc, failure, speaker),
        }
    }

    // What a command comes to.
    fn reply<F: Forms, S: Speech>(&self, forms: &F, speech: &S, asked: Asked<'_>) -> Reply
        ensures { IsReplyOf (F.is_text forms.now) (S.is_about speech.now) self.now.language (O.bytes self.now.outside.now) asked.entry result }
    {
        let Asked { request, options } = asked;
        let commands = self.speaking(options.language);
        let speaker = Speaker {
            command: request.command(),
            language: commands.language,
            is_json: is_json(&request),
            is_quiet: options.is_quiet,
        };
        let reply = commands.reply_in(forms, speech, request, speaker);
        drop(commands);
        reply
    }

    // What words come to.
    fn reply_to<F: Forms, S: Speech>(&self, forms: &F, speech: &S, words: &[String]) -> Reply
        ensures { IsReplyTo (F.is_text forms.now) (S.is_about speech.now) self.now.language (O.bytes self.now.outside.now) (map string_bytes words.now) result }
    {
        match request_of(self.alloc, self.language, words) {
            Ok(asked) => self.reply(forms, speech, asked),
            Err(answer) => Reply::of_words(self.alloc, answer),
        }
    }
}

/// What words come to, of which the first is the program's name, over what lies outside and in this language if they name none: the exit status is 1 where
/// the words are refused or a file would be lost, and 5 where an input cannot be read or memory runs out. After the line of a refusal, a fault or an error it
/// is explained; after a count there are warnings of what is likely a mistake.
pub fn reply_to<O: Outside, F: Forms, S: Speech>(
    alloc: Global,
    outside: &O,
    language: Language,
    forms: &F,
    speech: &S,
    words: &[String],
) -> Reply
    ensures { IsReplyTo (F.is_text forms.now) (S.is_about speech.now) language (O.bytes outside.now) (map string_bytes words.now) result }
{
    let commands = Commands {
        outside,
        alloc,
        language,
    };
    let reply = commands.reply_to(forms, speech, words);
    drop(commands);
    reply
}

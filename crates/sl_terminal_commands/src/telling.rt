//! Why a command was not completed, as it is told on standard error: the line of a failure, and an explanation.

use crate::failure::Failure;
use sl_base_quotients::NoMemory;
use sl_count_inputs::DeskError;
use sl_explain_calls::{Lost, explain_failure, explain_kept, explain_opening, explain_writing};
use sl_explain_texts::{Explanation, Language, VERSION, written};
use sl_report_commands::failed_text;
use sl_terminal_outside::Unopened;
use sl_terminal_words::reason_in;
use std::alloc::Global;
use std::fmt::Display;

/// What is said on standard error.
#[derive(Drop)]
pub enum Said {
    /// A text, which may have no bytes.
    Text(Vec<u8>),
    /// A text that takes no memory.
    Fixed(&'static str),
    /// That memory ran out, as the JSON of this command.
    OutOfMemory(&'static str),
}

/// That memory ran out, as the JSON of a command, in pieces that take none.
pub(crate) fn out_of_memory(command: &'static str) -> [&'static str; 5] {
    [
        "{\"command\":\"",
        command,
        "\",\"explanation\":null,\"fault\":\"out of memory\",\"inputs\":[],\"program\":\"",
        VERSION,
        "\",\"schema\":2,\"status\":5,\"tables\":{}}\n",
    ]
}

/// How a command tells that it was not completed: in a language, as JSON or in lines, and with an explanation or without.
#[derive(Clone, Copy)]
pub(crate) struct Speaker {
    pub(crate) command: &'static str,
    pub(crate) language: Language,
    pub(crate) is_json: bool,
    pub(crate) is_quiet: bool,
}

// A reason of the system in a language.
fn reason_of(alloc: Global, language: Language, reason: &impl Display) -> Result<String, NoMemory> {
    let text = format!(in alloc; "{reason}")?;
    Ok(reason_in(alloc, language, text.as_str())?)
}

impl Speaker {
    // What is explained of no file, where there is memory for it.
    fn explained(self, alloc: Global, explanation: &Explanation) -> Result<Vec<u8>, NoMemory> {
        written(alloc, self.language, None, b"", explanation)
    }

    // The line of an error, and what is explained of it, unless explanations are off or there is no memory for it.
    fn lines(self, alloc: Global, error: DeskError, explanation: Option<Explanation>) -> Said {
        let Ok(line) = format!(in alloc; "{error}\n") else {
            return Said::Fixed("out of memory\n");
        };
        let mut text = line.into_bytes();
        if !self.is_quiet
            && let Some(explanation) = explanation
            && let Ok(explained) = self.explained(alloc, &explanation)
        {
            let _ = text.extend_from_slice(explained.as_slice());
        }
        Said::Text(text)
    }

    // An error with what is explained of it.
    fn error(self, alloc: Global, error: DeskError, explanation: Option<Explanation>) -> Said {
        if !self.is_json {
            return self.lines(alloc, error, explanation);
        }
        let (command, language) = (self.command, self.language);
        match failed_text(alloc, command, language, error, explanation.as_ref()) {
            Ok(text) => Said::Text(text),
            Err(NoMemory) => Said::OutOfMemory(command),
        }
    }

    // Why an input could not be opened.
    fn opening<E: Display>(
        self,
        alloc: Global,
        unopened: &Unopened<'_, E>,
    ) -> Result<Explanation, NoMemory> {
        let reason = reason_of(alloc, self.language, &unopened.reason)?;
        let (input, path) = (unopened.input, unopened.path);
        explain_opening(
            alloc,
            self.language,
            self.command,
            input,
            path,
            reason.as_str(),
        )
    }

    // Why a file could not be made.
    fn making(
        self,
        alloc: Global,
        path: &str,
        reason: &impl Display,
    ) -> Result<Explanation, NoMemory> {
        let reason = reason_of(alloc, self.language, reason)?;
        explain_writing(alloc, self.language, path, reason.as_str())
    }

    // That a file would be lost, even where nothing is explained.
    fn kept(self, alloc: Global, path: &str, lost: Lost) -> Result<Vec<u8>, NoMemory> {
        let explanation = explain_kept(alloc, self.language, path, lost)?;
        self.explained(alloc, &explanation)
    }

    /// The same, or nothing where there is no memory for it.
    pub(crate) fn spared(self, alloc: Global, path: &str, lost: Lost) -> Said {
        match self.kept(alloc, path, lost) {
            Ok(text) => Said::Text(text),
            Err(NoMemory) => Said::Fixed(""),
        }
    }

    /// Why a command was not completed.
    pub(crate) fn failure<E: Display>(self, alloc: Global, failure: &Failure<'_, E>) -> Said {
        match failure {
            Failure::Unopened(unopened) => {
                self.error(alloc, unopened.error(), self.opening(alloc, unopened).ok())
            }
            Failure::Unmade { path, reason } => {
                self.lines(
                    alloc,
                    DeskError::Write,
                    self.making(alloc, path, reason).ok(),
                )
            }
            Failure::Call(error) => {
                let explained = explain_failure(alloc, self.language, *error);
                self.error(alloc, *error, explained.ok().flatten())
            }
        }
    }
}

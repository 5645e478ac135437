//! Where the program runs, and the one place where anything is written.

ghost use Rattle.std.specs.Io.KnownBytes.{Appends};
ghost use Rattle.std.specs.Prelude.{◌≡◌, ◌≢◌, ◌⊎◌, IfErr, IsSome, List, OnOk, Some, map, string_bytes, ℕ};
ghost use Rattle.sl_count_inputs.specs.Failures.{one_more};
ghost use Rattle.sl_count_inputs.specs.Writing.{AppendsPrefix};
ghost use Rattle.sl_terminal_commands.specs.Given.{IsGiven, IsKept, IsMade, IsRun};
ghost use Rattle.sl_terminal_commands.specs.Replies.{IsReplyTo};
ghost use Rattle.sl_terminal_commands.specs.inner.Steps.{IsHeard, IsWritten, OnlyMakes};

use crate::failure::Failure;
use crate::reply::{Made, Reply, reply_to};
use crate::speech::Speech;
use crate::telling::{Said, Speaker, out_of_memory};
use sl_count_inputs::{DeskError, Sink, write_all};
use sl_explain_texts::Language;
use sl_report_commands::Forms;
use sl_terminal_outside::{Outside, Writable};
use std::alloc::Global;

// The variables that tell the language of messages, the first that is set and not empty before the others.
const VARIABLES: [&str; 3] = ["LC_ALL", "LC_MESSAGES", "LANG"];

// The language of the environment.
fn language_of<O: Outside>(alloc: Global, outside: &O) -> Language {
    for name in VARIABLES {
        if let Some(value) = outside.variable(alloc, name)
            && !value.is_empty()
        {
            return Language::of_locale(value.as_str()).unwrap_or(Language::English);
        }
    }
    Language::English
}

/// Where the program runs: what lies outside, standard output and standard error, and the language of the environment.
#[derive(Drop)]
pub struct Terminal<O, W, E> {
    pub outside: O,
    pub out: W,
    pub err: E,
    alloc: Global,
    language: Language,
}

impl<O: Writable, W: Sink, E: Sink> Terminal<O, W, E> {
    /// A terminal that speaks the language of the environment.
    pub fn new(alloc: Global, outside: O, out: W, err: E) -> Terminal<O, W, E> {
        let language = language_of(alloc, &outside);
        Terminal {
            outside,
            out,
            err,
            alloc,
            language,
        }
    }

    // Makes a file.
    fn make<'a>(&mut self, made: &'a Made) -> Result<(), Failure<'a, O::Reason>>
        ensures rest { OnlyMakes self.old self.new }
        ensures file { O.tells_made self.old.outside → OnOk result (O.bytes self.new.outside (string_bytes made.now.path) ≡ Some made.now.bytes.items) }
        ensures others { (other : List ℕ) → other ≢ string_bytes made.now.path → O.bytes self.new.outside other ≡ O.bytes self.old.outside other }
    {
        match self.outside.create(made.path.as_str()) {
            Ok(mut file) => match write_all(&mut file, made.bytes.as_slice()) {
                Ok(()) => {
                    self.outside.close(made.path.as_str(), file);
                    Ok(())
                }
                Err(_) => Err(Failure::Call(DeskError::Write)),
            },
            Err(reason) => Err(Failure::Unmade {
                path: made.path.as_str(),
                reason,
            }),
        }
    }

    // Writes a text to standard output.
    fn write_out<'a>(&mut self, text: &[u8]) -> Result<(), Failure<'a, O::Reason>>
        ensures outside { self.new.outside ≡ self.old.outside }
        ensures err { self.new.err ≡ self.old.err }
        ensures written { IsWritten W.contents W.failed text.now self.old.out self.new.out result }
    {
        match write_all(&mut self.out, text) {
            Ok(()) => Ok(()),
            Err(_) => Err(Failure::Call(DeskError::Write)),
        }
    }

    // Writes the file of a reply, if it makes one, and its text.
    fn write<'a>(&mut self, reply: &'a Reply) -> Result<(), Failure<'a, O::Reason>>
        ensures err { self.new.err ≡ self.old.err }
        ensures kept { IsKept O.bytes O.tells_made W.contents W.failed E.contents E.failed self.old.outside self.new.outside reply.now.made }
        ensures file { OnOk result (IsMade O.bytes O.tells_made W.contents W.failed E.contents E.failed self.old.outside self.new.outside reply.now.made) }
        ensures whole { OnOk result (Appends (W.contents self.old.out) (W.contents self.new.out) reply.now.out.items) }
        ensures why { IfErr result (λ _. IsSome reply.now.made ⊎ (W.failed self.new.out ≡ one_more (W.failed self.old.out))) }
        ensures cut { IfErr result (λ _. AppendsPrefix (W.contents self.old.out) (W.contents self.new.out) reply.now.out.items) }
    {
        match &reply.made {
            Some(made) => match self.make(made) {
                Ok(()) => self.write_out(reply.out.as_slice()),
                Err(failure) => Err(failure),
            },
            None => self.write_out(reply.out.as_slice()),
        }
    }

    // Says it on standard error.
    fn say(&mut self, said: &Said)
        ensures outside { self.new.outside ≡ self.old.outside }
        ensures out { self.new.out ≡ self.old.out }
        ensures heard { IsHeard E.contents E.failed said.now self.old.err self.new.err }
    {
        match said {
            Said::Text(text) => {
                let _ = write_all(&mut self.err, text.as_slice());
            }
            Said::Fixed(text) => {
                let _ = write_all(&mut self.err, text.as_bytes());
            }
            Said::OutOfMemory(command) => {
                for piece in out_of_memory(*command) {
                    let _ = write_all(&mut self.err, piece.as_bytes());
                }
            }
        }
    }

    // Tells why a reply could not be written, if it is told.
    fn tell(&mut self, speaker: Option<Speaker>, failure: &Failure<'_, O::Reason>)
        ensures outside { self.new.outside ≡ self.old.outside }
        ensures out { self.new.out ≡ self.old.out }
    {
        if let Some(speaker) = speaker {
            let said = speaker.failure(self.alloc, failure);
            self.say(&said);
        }
    }

    // Writes a reply, and answers the exit status: its own, or 5 where it could not be written.
    fn give(&mut self, reply: &Reply) -> u8
        ensures { IsGiven O.bytes O.tells_made W.contents W.failed E.contents E.failed reply.now self.old self.new result }
    {
        match self.write(reply) {
            Ok(()) => {
                self.say(&reply.said);
                reply.number
            }
            Err(failure) => {
                self.tell(reply.speaker, &failure);
                5
            }
        }
    }
}

/// Runs the program with these words, of which the first is its name, and answers the exit status. Nothing is written before it is known what the words come
/// to; then the file that is made, the text and what is said are written, in this order.
pub fn run<O: Writable, W: Sink, E: Sink, F: Forms, S: Speech>(
    terminal: &mut Terminal<O, W, E>,
    forms: &F,
    speech: &S,
    words: &[String],
) -> u8
    ensures { IsRun O.bytes O.tells_made W.contents W.failed E.contents E.failed
        (IsReplyTo (F.is_text forms.now) (S.is_about speech.now) terminal.old.language (O.bytes terminal.old.outside) (map string_bytes words.now))
        terminal.old terminal.new result }
{
    let (alloc, language) = (terminal.alloc, terminal.language);
    let reply = reply_to(alloc, &terminal.outside, language, forms, speech, words);
    let number = terminal.give(&reply);
    drop(reply);
    number
}

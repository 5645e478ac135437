//! The words of the command line.

ghost use Rattle.std.specs.Prelude.{◌≡◌, ◌∷◌, [], IfOk, false, map, option_and_then, string_bytes};
ghost use Rattle.clap.specs.Words.{app_of, rule_of, subcommand_rows_of};
ghost use Rattle.sl_terminal_words.specs.Answers.{Answers, IsAnswerTo};
ghost use Rattle.sl_terminal_words.specs.Commands.{all_commands, command_word, program_for, rule_named, shape_of_command};
ghost use Rattle.sl_terminal_words.specs.Requests.{asked_by, command_of};
ghost use Rattle.sl_terminal_words.specs.inner.Replies.{Replies};
ghost use Rattle.sl_terminal_words.specs.inner.Rules.{HasCommands, HasRules, IsOfForm, app_of_form, plain, plain_rule, rule_of_word};

use crate::answers::{Answer, answer_to, refuse};
use crate::help::{COMMANDS, Form, PROGRAM, command_of};
use crate::options::{Options, language_in};
use crate::reports::Report;
use crate::requests::asked_in;
use crate::texts::command_line::{NO_COMMAND, SAME_FILE, UNKNOWN_CODE};
use crate::words::{Given, Word, WordName};
use clap::{Arg, ArgAction, ArgMatches, Command};
use sl_base_quotients::NoMemory;
use sl_explain_texts::{FaultCode, Language, Message, VERSION};
use sl_report_forms::Shape;
use std::alloc::{AllocError, Global};

/// What is shown of an election that is counted.
#[derive(Clone, Copy)]
pub enum Show<'a> {
    /// Its seat table.
    Seats,
    /// The step that won each seat, and its seat table.
    Steps,
    /// The column of the stage of that name.
    Stage(&'a str),
}

/// What a command line asks for.
#[derive(Drop)]
pub enum Request<'a> {
    /// To count an election by a rulebook.
    Count {
        show: Show<'a>,
        book: &'a str,
        returns: &'a str,
    },
    /// To check a rulebook.
    Check {
        book: &'a str,
    },
    /// To compile a rulebook to a code file.
    Code {
        book: &'a str,
        file: &'a str,
        /// Whatever file lies there.
        is_forced: bool,
    },
    /// To run a code file on returns.
    Run {
        code: &'a str,
        returns: &'a str,
    },
    /// To write a rulebook of the library.
    Law {
        name: &'a str,
    },
    /// To say what the code of a fault means.
    Explain {
        code: FaultCode,
    },
    /// To report in a form, with the full names of a file if one is given.
    Report {
        what: Report<'a>,
        form: Shape,
        names: Option<&'a str>,
    },
}

/// A request, and how the command speaks.
#[derive(Drop)]
pub struct Asked<'a> {
    pub request: Request<'a>,
    pub options: Options,
}

impl Request<'_> {
    /// The command that asks for it.
    pub fn command(&self) -> &'static str
        ensures { result.now ≡ command_word (command_of self.now) }
    {
        match self {
            Request::Count { show, .. } => match show {
                Show::Seats => "count",
                Show::Steps => "steps",
                Show::Stage(_) => "stage",
            },
            Request::Check { .. } => "check",
            Request::Code { .. } => "code",
            Request::Run { .. } => "run",
            Request::Law { .. } => "law",
            Request::Explain { .. } => "explain",
            Request::Report { what, .. } => match what {
                Report::Seats { .. } => "count",
                Report::Steps { .. } => "steps",
                Report::Count { .. } | Report::Short { .. } => "report",
                Report::Stages { .. } => "stages",
                Report::Totals { .. } => "totals",
                Report::Compare { .. } => "compare",
            },
        }
    }
}

// A word that is given by its name.
fn named<'a>(arg: Arg<'a>, word: &Word, action: ArgAction) -> Arg<'a>
    ensures { result ≡ record arg.entry { long = Some word.now.name; action = Some action } }
{
    arg.long(word.name).action(action)
}

// A word of a command, with its help.
fn arg_of<'a>(alloc: Global, language: Language, word: &Word) -> Result<Arg<'a>, AllocError>
    ensures rule { IfOk result (λ arg. plain_rule (rule_of arg) ≡ rule_of_word word.now) }
    ensures own { IfOk result (λ arg. arg.global ≡ false) }
{
    let arg = Arg::new(alloc, word.name).help(language.text(&word.help));
    match word.given {
        Given::Flag(against) => named(arg, word, ArgAction::SetTrue).conflicts_with_all(against),
        Given::Letter(letter) => Ok(named(arg, word, ArgAction::SetTrue).short(letter)),
        Given::Value(value) => {
            Ok(named(arg, word, ArgAction::Set).value_name(language.text(&value)))
        }
        Given::Beside(value, flag) => {
            let arg = named(arg, word, ArgAction::Set).value_name(language.text(&value));
            arg.requires_arg(flag)
        }
        Given::Choice(value, values) => {
            let arg = named(arg, word, ArgAction::Set).value_name(language.text(&value));
            Ok(arg.value_parser(values))
        }
        Given::Choices(value, values, beside) => {
            let arg = named(arg, word, ArgAction::Append).value_name(language.text(&value));
            arg.value_parser(values).requires_arg(beside)
        }
        Given::Repeated => Ok(arg.action(ArgAction::Append).num_args(0..)),
        Given::Optional => Ok(arg.action(ArgAction::Set)),
        Given::Needed => Ok(arg.action(ArgAction::Set).required(true)),
    }
}

// The command with one more word.
fn with_word<'a>(
    alloc: Global,
    language: Language,
    command: Command<'a>,
    word: &Word,
) -> Result<Command<'a>, AllocError>
    ensures { IfOk result (HasRules command.entry (rule_of_word word.now ∷ [])) }
{
    command.arg(arg_of(alloc, language, word)?)
}

// The command with more words.
fn with_words<'a>(
    alloc: Global,
    language: Language,
    mut command: Command<'a>,
    names: &[WordName],
) -> Result<Command<'a>, AllocError>
    ensures { IfOk result (HasRules command.entry (map rule_named names.now)) }
{
    for name in names {
        command = with_word(alloc, language, command, name.word())?;
    }
    Ok(command)
}

// A command with its words and its help, but for the end of that.
fn command<'a>(alloc: Global, language: Language, form: &Form) -> Result<Command<'a>, AllocError>
    ensures { IfOk result (IsOfForm form.now) }
{
    let command = Command::new(alloc, form.name).about(language.text(&form.about));
    let command = with_words(alloc, language, command, form.words)?;
    with_words(alloc, language, command, form.options)
}

// The program with one more command.
fn with_command<'a>(
    alloc: Global,
    language: Language,
    program: Command<'a>,
    form: &Form,
) -> Result<Command<'a>, AllocError>
    ensures { IfOk result (HasCommands program.entry ((app_of_form form.now).top ∷ [])) }
{
    program.subcommand(command(alloc, language, form)?)
}

// The program with all commands.
fn with_commands<'a>(
    alloc: Global,
    language: Language,
    mut program: Command<'a>,
) -> Result<Command<'a>, AllocError>
    ensures { IfOk result (HasCommands program.entry (map shape_of_command all_commands)) }
{
    for command in COMMANDS {
        program = with_command(alloc, language, program, command.form())?;
    }
    Ok(program)
}

// The program with the command that the words name, since the others have no part in what that one reads and says; with all commands where they
// name none.
fn program<'a>(
    alloc: Global,
    language: Language,
    words: &[String],
) -> Result<Command<'a>, AllocError>
    ensures { IfOk result (λ program. plain (app_of program) ≡ program_for (map string_bytes words.now)) }
{
    let program = command(alloc, language, &PROGRAM)?;
    let program = program.version(VERSION).subcommand_required(true);
    match command_of(words) {
        Some(form) => with_command(alloc, language, program, form),
        None => with_commands(alloc, language, program),
    }
}

// Why words are refused that `clap` takes and that ask for nothing.
fn unasked(matches: &ArgMatches<'_>) -> &'static Message {
    match matches.subcommand() {
        Some(("code", _)) => &SAME_FILE,
        Some(("explain", _)) => &UNKNOWN_CODE,
        Some(_) | None => &NO_COMMAND,
    }
}

// What the words ask for, or why they are refused that `clap` takes.
fn asked_or_refused<'a>(
    alloc: Global,
    language: Language,
    program: &mut Command<'_>,
    matches: &ArgMatches<'a>,
) -> Result<Result<Asked<'a>, Answer>, NoMemory>
    ensures { IfOk result (Replies (option_and_then asked_by (subcommand_rows_of matches.now))) }
{
    match asked_in(alloc, matches)? {
        Some(asked) => Ok(Ok(asked)),
        None => Ok(Err(refuse(alloc, language, program, unasked(matches))?)),
    }
}

// What words ask for, or what is said of them, by the program that takes them.
fn read_by<'a>(
    alloc: Global,
    language: Language,
    words: &'a [String],
    program: &mut Command<'a>,
) -> Result<Result<Asked<'a>, Answer>, NoMemory>
    requires { plain (app_of program.old) ≡ program_for (map string_bytes words.now) }
    ensures { IfOk result (Answers language (map string_bytes words.entry.now)) }
{
    match program.try_get_matches_from_mut(words) {
        Ok(matches) => asked_or_refused(alloc, language, program, &matches),
        Err(error) => Ok(Err(answer_to(alloc, language, words, program, &error)?)),
    }
}

// What words ask for, or what is said of them.
fn read<'a>(
    alloc: Global,
    language: Language,
    words: &'a [String],
) -> Result<Result<Asked<'a>, Answer>, NoMemory>
    ensures { IfOk result (Answers language (map string_bytes words.entry.now)) }
{
    let mut program = program(alloc, language, words)?;
    let read = read_by(alloc, language, words, &mut program);
    drop(program);
    read
}

/// What these words ask for, of which the first is the program's name, or what is said of them: in the language that `--lang` names among them, else
/// in this one.
///
/// # Errors
///
/// A help, the version, a refusal by `clap`, a refusal of `code` with one word for its rulebook and its code file, a refusal of `explain` with a word
/// that is no code, or out of memory.
pub fn request_of<'a>(
    alloc: Global,
    language: Language,
    words: &'a [String],
) -> Result<Asked<'a>, Answer>
    ensures { IsAnswerTo language (map string_bytes words.entry.now) result }
{
    let spoken = language_in(words).unwrap_or(language);
    match read(alloc, spoken, words) {
        Ok(read) => read,
        Err(NoMemory) => Err(Answer::NoMemory(spoken)),
    }
}

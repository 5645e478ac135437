//! What to do about words that are refused: a command or an option that is meant, or an example.

use crate::help::{Form, command_of};
use crate::texts::hints::{
    ALL, BESIDE_SHORT, CALLED, CODE_ALONE, COMMAND_FIRST, COMPARE_ALONE, FOR_EXAMPLE, FORMAT,
    FROM_INPUT, HYPHENS, IN_PLACE, METHODS, NO_RULEBOOK, ONE_STAGE, OPTION_BEHIND, QUOTED,
    REPORT_ALONE, REPORTS, STAGE, TO_FILE, VERSION,
};
use clap::error::ErrorKind;
use sl_base_quotients::NoMemory;
use sl_explain_texts::{Message, Speaker};

// Words that are taken for commands, and the commands.
const MEANT: [(&str, &str); 20] = [
    ("diff", "compare"),
    ("vergleich", "compare"),
    ("vergleiche", "compare"),
    ("vs", "compare"),
    ("sum", "totals"),
    ("sums", "totals"),
    ("summe", "totals"),
    ("summen", "totals"),
    ("validate", "totals"),
    ("seats", "count"),
    ("sitze", "count"),
    ("table", "count"),
    ("calculate", "count"),
    ("bericht", "report"),
    ("show", "report"),
    ("print", "report"),
    ("compile", "code"),
    ("library", "law"),
    ("gesetz", "law"),
    ("error", "explain"),
];

// The command that is meant by a word, in small letters.
fn meant_by(word: &str) -> Option<&'static str> {
    let (_, command) = MEANT.iter().find(|(other, _)| word == *other)?;
    Some(command)
}

// Whether a word is a rulebook or returns, and no command.
fn is_input(word: &str) -> bool {
    word.starts_with("@") || word.ends_with(".csv") || word.ends_with(".law")
}

// What to do about a word that is no command, to which none is near.
fn about_command(speaker: Speaker, word: &str) -> Result<Vec<u8>, NoMemory> {
    match meant_by(word) {
        _ if word == "version" => speaker.text(&VERSION, &[]),
        _ if is_input(word) => speaker.text(&COMMAND_FIRST, &[]),
        Some(command) => speaker.text(&CALLED, &[command.as_bytes()]),
        None => speaker.text(&ALL, &[]),
    }
}

// An option without the value behind `=`.
fn option_name(word: &str) -> &str {
    word.split_once("=").map_or(word, |(name, _)| name)
}

// What is said of an option that its command lacks.
fn about_option(word: &str) -> Option<&'static Message> {
    match option_name(word) {
        "--markdown" | "--html" | "--json" | "--csv" | "--names" => Some(&REPORTS),
        "--short" | "--before" => Some(&REPORT_ALONE),
        "--method" => Some(&COMPARE_ALONE),
        "--force" => Some(&CODE_ALONE),
        "--book" | "--law" | "--returns" | "--input" | "--file" => Some(&IN_PLACE),
        "--output" | "--out" | "-o" => Some(&TO_FILE),
        "--format" => Some(&FORMAT),
        "-v" => Some(&VERSION),
        _ => None,
    }
}

// Whether a command has the option that a word names.
fn has_option(form: &Form, word: &str) -> bool {
    let name = option_name(word).strip_prefix("--").unwrap_or("");
    form.options.iter().any(|option| option.word().name == name)
}

// What to do about an option among the words that their command lacks: it stands before the command, or another command has it.
fn about_options(words: &[String]) -> Option<&'static Message> {
    let first = words.get(1)?.as_str();
    if first.starts_with("-") {
        return match first {
            "-v" => Some(&VERSION),
            _ => Some(&OPTION_BEHIND),
        };
    }
    let form = command_of(words)?;
    let mut others = words.iter().filter(|word| !has_option(form, word.as_str()));
    others.find_map(|word| about_option(word.as_str()))
}

// Whether a word begins so.
fn has_word(words: &[String], beginning: &str) -> bool {
    words
        .iter()
        .any(|word| word.as_str().starts_with(beginning))
}

// What is said of an option that stands beside a word that is missing.
fn beside_missing(words: &[String]) -> Option<&'static Message> {
    match command_of(words)?.name {
        "report" if has_word(words, "--before") && !has_word(words, "--short") => {
            Some(&BESIDE_SHORT)
        }
        "compare" if has_word(words, "--method") => Some(&NO_RULEBOOK),
        _ => None,
    }
}

// Whether a command reads returns.
fn reads_returns(form: &Form) -> bool {
    form.example.contains("returns.csv")
}

// What to do where a word of a command is missing.
fn about_missing(speaker: Speaker, words: &[String]) -> Result<Option<Vec<u8>>, NoMemory> {
    if let Some(message) = beside_missing(words) {
        return Ok(Some(speaker.filled(message, &[])?));
    }
    let Some(form) = command_of(words) else {
        return Ok(None);
    };
    let example = [form.example.as_bytes()];
    Ok(Some(if form.name == "stage" {
        speaker.text(&STAGE, &[])?
    } else if reads_returns(form) {
        speaker.text(&FROM_INPUT, &example)?
    } else {
        speaker.text(&FOR_EXAMPLE, &example)?
    }))
}

// The name of an option after a dash that a word processor has made of two hyphens.
fn after_dash(word: &str) -> Option<&str> {
    word.strip_prefix("–").or(word.strip_prefix("—"))
}

// What to do about a word that is more than a command takes, where all of its options are those of the command.
fn about_surplus(words: &[String]) -> Option<&'static Message> {
    let form = command_of(words)?;
    let mut options = words.iter().filter(|word| word.as_str().starts_with("-"));
    if !reads_returns(form) || !options.all(|word| has_option(form, word.as_str())) {
        None
    } else if form.name == "stages" {
        Some(&ONE_STAGE)
    } else {
        Some(&QUOTED)
    }
}

// What to do about a word that a command does not take.
fn about_unknown(speaker: Speaker, words: &[String]) -> Result<Option<Vec<u8>>, NoMemory> {
    if let Some(name) = words.iter().find_map(|word| after_dash(word.as_str())) {
        return Ok(Some(speaker.text(&HYPHENS, &[name.as_bytes()])?));
    }
    match about_options(words).or(about_surplus(words)) {
        Some(message) => Ok(Some(speaker.filled(message, &[])?)),
        None => Ok(None),
    }
}

// The word that should be a command: the first, or the one after `help`.
fn command_word(words: &[String]) -> &str {
    let first = words.get(1).map_or("", |word| word.as_str());
    match words.get(2) {
        Some(word) if first == "help" => word.as_str(),
        _ => first,
    }
}

/// What to do about words that are refused for a reason of this kind, if more can be said than the refusal says.
pub(crate) fn hint_of(
    speaker: Speaker,
    words: &[String],
    kind: ErrorKind,
) -> Result<Option<Vec<u8>>, NoMemory> {
    match kind {
        ErrorKind::InvalidSubcommand => Ok(Some(about_command(speaker, command_word(words))?)),
        ErrorKind::MissingRequiredArgument => about_missing(speaker, words),
        ErrorKind::InvalidValue if has_word(words, "--method") => {
            Ok(Some(speaker.text(&METHODS, &[])?))
        }
        ErrorKind::UnknownArgument => about_unknown(speaker, words),
        _ => Ok(None),
    }
}

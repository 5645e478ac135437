//! The help of a command as a text, for a language that `clap` does not write; and the end of a help, which `clap` does not have.

use crate::help::{COMMANDS, Form, LAW_NAME};
use crate::texts::page::{
    ALL_STATUSES, COMMAND, EXAMPLE, HELP_COMMAND, NO_ELECTION, SOME_OPTIONS, STATUSES,
    TITLE_OF_COMMANDS, TITLE_OF_OPTIONS, TITLE_OF_STATUTES, TITLE_OF_WORDS, USAGE, VALUES,
};
use crate::words::{Given, HELP_NAME, Word, WordName};
use sl_explain_texts::Language;
use sl_laws::{ELECTIONS, STATUTES, Statute};
use std::alloc::{AllocError, Global};

// A row of a list: how something is written, and what it is.
#[derive(Drop)]
struct Row {
    shown: String,
    said: String,
}

impl Row {
    fn new(alloc: Global) -> Row {
        Row {
            shown: String::new(alloc),
            said: String::new(alloc),
        }
    }
}

fn push_parts(text: &mut String, parts: &[&str]) -> Result<(), AllocError> {
    for part in parts {
        text.push_str(part)?;
    }
    Ok(())
}

// What stands before and behind the name of a word, where it is written without a letter or a value.
fn marks(given: &Given) -> (&'static str, &'static str) {
    match given {
        Given::Needed => ("<", ">"),
        Given::Optional => ("[", "]"),
        Given::Repeated => ("[", "]..."),
        _ => ("    --", ""),
    }
}

// Adds how a word is written.
fn push_shown(text: &mut String, language: Language, word: &Word) -> Result<(), AllocError> {
    let name = word.name;
    match &word.given {
        Given::Letter(letter) => {
            text.push_str("-")?;
            text.push(*letter)?;
            push_parts(text, &[", --", name])
        }
        Given::Value(value)
        | Given::Beside(value, _)
        | Given::Choice(value, _)
        | Given::Choices(value, _, _) => {
            let value = language.text(value);
            push_parts(text, &["    --", name, " <", value, ">"])
        }
        given => {
            let (before, behind) = marks(given);
            push_parts(text, &[before, name, behind])
        }
    }
}

// Adds the values that a word may have.
fn push_values(text: &mut String, language: Language, values: &[&str]) -> Result<(), AllocError> {
    let mut before = language.text(&VALUES);
    for value in values {
        text.push_str(before)?;
        text.push_str(value)?;
        before = ", ";
    }
    text.push_str("]")
}

// Adds what a word stands for, with the values that it may have.
fn push_said(text: &mut String, language: Language, word: &Word) -> Result<(), AllocError> {
    text.push_str(language.text(&word.help))?;
    match word.given {
        Given::Choice(_, values) | Given::Choices(_, values, _) => {
            push_values(text, language, values)
        }
        _ => Ok(()),
    }
}

fn row_of_word(alloc: Global, language: Language, word: &Word) -> Result<Row, AllocError> {
    let mut row = Row::new(alloc);
    push_shown(&mut row.shown, language, word)?;
    push_said(&mut row.said, language, word)?;
    Ok(row)
}

fn row_of(alloc: Global, shown: &str, said: &str) -> Result<Row, AllocError> {
    let mut row = Row::new(alloc);
    row.shown.push_str(shown)?;
    row.said.push_str(said)?;
    Ok(row)
}

// Adds a row that was made.
fn push_made(rows: &mut Vec<Row>, row: Result<Row, AllocError>) -> Result<(), AllocError> {
    rows.push(row?)?;
    Ok(())
}

// Adds the rows of words.
fn push_rows(
    rows: &mut Vec<Row>,
    alloc: Global,
    language: Language,
    words: &[WordName],
) -> Result<(), AllocError> {
    for name in words {
        push_made(rows, row_of_word(alloc, language, name.word()))?;
    }
    Ok(())
}

// The rows of the commands, and of the one that `clap` adds.
fn command_rows(alloc: Global, language: Language) -> Result<Vec<Row>, AllocError> {
    let mut rows = Vec::new(alloc);
    for command in &COMMANDS {
        let form = command.form();
        let about = language.text(&form.about);
        push_made(&mut rows, row_of(alloc, form.name, about))?;
    }
    let about = language.text(&HELP_COMMAND);
    push_made(&mut rows, row_of(alloc, HELP_NAME, about))?;
    Ok(rows)
}

// The rows of the options, with those that `clap` adds.
fn option_rows(alloc: Global, language: Language, form: &Form) -> Result<Vec<Row>, AllocError> {
    let mut rows = Vec::new(alloc);
    push_rows(&mut rows, alloc, language, form.options)?;
    let added: &[WordName] = if form.words.is_empty() {
        &[WordName::Help, WordName::Version]
    } else {
        &[WordName::Help]
    };
    push_rows(&mut rows, alloc, language, added)?;
    Ok(rows)
}

fn width(text: &str) -> usize {
    text.chars().count()
}

// The characters of what is widest in the first column of some rows.
fn widest(rows: &[Row]) -> usize {
    let mut most = 0;
    for row in rows {
        most = width(row.shown.as_str()).max(most);
    }
    most
}

// A row whose second column begins after so many characters.
fn push_row(text: &mut String, row: &Row, most: usize) -> Result<(), AllocError> {
    let shown = row.shown.as_str();
    push_parts(text, &["\n  ", shown])?;
    for _ in width(shown)..most {
        text.push_str(" ")?;
    }
    push_parts(text, &["  ", row.said.as_str()])
}

// A list under its title, if it has rows.
fn push_list(text: &mut String, title: &str, rows: &[Row]) -> Result<(), AllocError> {
    if rows.is_empty() {
        return Ok(());
    }
    let most = widest(rows);
    text.push_str(title)?;
    for row in rows {
        push_row(text, row, most)?;
    }
    Ok(())
}

// Adds the years of the elections that were held under a statute.
fn push_years(years: &mut String, statute: &Statute) -> Result<(), AllocError> {
    for (year, under) in &ELECTIONS {
        if *under == Some(statute.name) {
            if !years.is_empty() {
                years.push_str(", ")?;
            }
            years.push_str(year)?;
        }
    }
    Ok(())
}

// The row of a statute, with its elections.
fn row_of_statute(alloc: Global, language: Language, statute: &Statute) -> Result<Row, AllocError> {
    let mut row = row_of(alloc, statute.name, "")?;
    push_years(&mut row.said, statute)?;
    if row.said.is_empty() {
        row.said.push_str(language.text(&NO_ELECTION))?;
    }
    Ok(row)
}

fn statute_rows(alloc: Global, language: Language) -> Result<Vec<Row>, AllocError> {
    let mut rows = Vec::new(alloc);
    for statute in &STATUTES {
        push_made(&mut rows, row_of_statute(alloc, language, statute))?;
    }
    Ok(rows)
}

// Adds the words of a command, each behind a space.
fn push_call(text: &mut String, language: Language, words: &[WordName]) -> Result<(), AllocError> {
    for name in words {
        text.push_str(" ")?;
        push_shown(text, language, name.word())?;
    }
    Ok(())
}

/// Adds how a command is called, with a title.
pub(crate) fn push_usage(
    text: &mut String,
    language: Language,
    form: &Form,
) -> Result<(), AllocError> {
    let (program, rest) = if form.words.is_empty() {
        ("", &COMMAND)
    } else {
        ("seatlaw ", &SOME_OPTIONS)
    };
    let title = language.text(&USAGE);
    push_parts(text, &[title, program, form.name, language.text(rest)])?;
    push_call(text, language, form.words)
}

// Adds the statutes, to the help of the command that writes one.
fn push_statutes(
    text: &mut String,
    alloc: Global,
    language: Language,
    form: &Form,
) -> Result<(), AllocError> {
    if form.name != LAW_NAME {
        return Ok(());
    }
    let rows = statute_rows(alloc, language)?;
    push_list(text, language.text(&TITLE_OF_STATUTES), rows.as_slice())
}

// Adds the exit statuses.
fn push_statuses(text: &mut String, language: Language, form: &Form) -> Result<(), AllocError> {
    let title = if form.words.is_empty() {
        &ALL_STATUSES
    } else {
        &STATUSES
    };
    text.push_str(language.text(title))?;
    for status in form.statuses {
        push_parts(text, &["\n", language.text(&status.said())])?;
    }
    text.push_str("\n")
}

/// Adds what stands at the end of a help: what is read and written, an example, and the exit statuses.
pub(crate) fn push_ending(
    text: &mut String,
    alloc: Global,
    language: Language,
    form: &Form,
) -> Result<(), AllocError> {
    push_parts(text, &["\n", language.text(&form.more)])?;
    push_statutes(text, alloc, language, form)?;
    push_parts(text, &[language.text(&EXAMPLE), form.example])?;
    push_statuses(text, language, form)
}

// Adds the commands, to the help of the program.
fn push_commands(
    text: &mut String,
    alloc: Global,
    language: Language,
    form: &Form,
) -> Result<(), AllocError> {
    if !form.words.is_empty() {
        return Ok(());
    }
    let rows = command_rows(alloc, language)?;
    push_list(text, language.text(&TITLE_OF_COMMANDS), rows.as_slice())
}

// Adds the words of a command.
fn push_words(
    text: &mut String,
    alloc: Global,
    language: Language,
    form: &Form,
) -> Result<(), AllocError> {
    let mut rows = Vec::new(alloc);
    push_rows(&mut rows, alloc, language, form.words)?;
    push_list(text, language.text(&TITLE_OF_WORDS), rows.as_slice())
}

// Adds the options of a command.
fn push_options(
    text: &mut String,
    alloc: Global,
    language: Language,
    form: &Form,
) -> Result<(), AllocError> {
    let rows = option_rows(alloc, language, form)?;
    push_list(text, language.text(&TITLE_OF_OPTIONS), rows.as_slice())
}

/// Adds the help of a command without its end, as `clap` writes the English one.
pub(crate) fn push_page(
    text: &mut String,
    alloc: Global,
    language: Language,
    form: &Form,
) -> Result<(), AllocError> {
    push_parts(text, &[language.text(&form.about), "\n\n"])?;
    push_usage(text, language, form)?;
    push_commands(text, alloc, language, form)?;
    push_words(text, alloc, language, form)?;
    push_options(text, alloc, language, form)?;
    text.push_str("\n")
}

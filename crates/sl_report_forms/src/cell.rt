//! The cells of a sheet. Each stays what it shows, a number, a party or a word, until it is written.

ghost use Rattle.std.specs.Prelude.{◌≡◌, IfOk, string_bytes};
ghost use Rattle.sl_report_forms.specs.Cells.{content_of, known, known_decimal, known_flag};
ghost use Rattle.sl_report_forms.specs.CellTexts as spec;

use crate::draft::copied;
use crate::names::{Length, Names};
use crate::words::{NO, YES, condition_text};
use sl_base_quotients::NoMemory;
use sl_explain_texts::{Language, Message};
use sl_law_margins::Decimal;
use sl_law_meaning::{Cond, Item, Scope};
use std::alloc::Global;
use std::cmp::Ordering;

/// A cell. A decimal number or a fraction is a text in JSON, so that no reader makes a float of it.
#[derive(Drop)]
pub enum Cell {
    Empty,
    /// A text that is the same for everybody.
    Text(String),
    /// Sentences for a person, of which no definition tells.
    Prose(String),
    Number(u64),
    Decimal(Decimal),
    /// A fraction by its two numbers, as they are.
    Fraction(u128, u128),
    /// A number and an earlier one: by how much it is more or less.
    Change(u64, u64),
    Flag(bool),
    Word(Message),
    Condition(Cond),
    /// A stage of the book by its number, or the seats after the last one.
    Stage(usize),
    /// The short name of an entry.
    Entry(Item),
    /// The name of an entry that a reader sees in a scope.
    EntryName(Item, Scope),
    /// The short names of entries, separated by blanks.
    Entries(Vec<Item>),
    /// Entries of a scope, at least one: a list of short names for a program, and names that a reader sees there.
    Claimants(Vec<Item>, Scope),
    /// A scope by its short names.
    Scope(Scope),
    /// The name of a scope that a reader sees.
    ScopeName(Scope),
}

/// Who reads the text of a cell: a program, for which it is the same in every language, or a person.
#[derive(Clone, Copy)]
pub enum Reader {
    Program,
    /// One who reads a language.
    Person(Language),
}

impl Reader {
    fn language(self) -> Language
        ensures { result ≡ spec.language_for self }
    {
        match self {
            Reader::Program => Language::English,
            Reader::Person(language) => language,
        }
    }
}

// The difference of two numbers, for a person with a sign where the first is the greater one.
fn change_text(alloc: Global, reader: Reader, number: u64, before: u64) -> Result<String, NoMemory>
    ensures { IfOk result (λ t. string_bytes t ≡ spec.change_text reader number before) }
{
    let sign = match (number.cmp(&before), reader) {
        (Ordering::Less, _) => "-",
        (Ordering::Greater, Reader::Person(_)) => "+",
        (_, _) => "",
    };
    let by = number.abs_diff(before);
    Ok(format!(in alloc; "{sign}{by}")?)
}

// The two numbers of a fraction, separated by a slash.
fn fraction_text(alloc: Global, num: u128, den: u128) -> Result<String, NoMemory>
    ensures { IfOk result (λ t. string_bytes t ≡ spec.fraction_text num den) }
{
    Ok(format!(in alloc; "{num}/{den}")?)
}

impl Cell {
    /// A number, or an empty cell.
    pub fn known(number: Option<u64>) -> Cell
        ensures { content_of result ≡ known number }
    {
        match number {
            Some(number) => Cell::Number(number),
            None => Cell::Empty,
        }
    }

    /// A decimal number, or an empty cell.
    pub fn known_decimal(number: Option<Decimal>) -> Cell
        ensures { content_of result ≡ known_decimal number }
    {
        match number {
            Some(number) => Cell::Decimal(number),
            None => Cell::Empty,
        }
    }

    /// A flag, or an empty cell.
    pub fn known_flag(flag: Option<bool>) -> Cell
        ensures { content_of result ≡ known_flag flag }
    {
        match flag {
            Some(flag) => Cell::Flag(flag),
            None => Cell::Empty,
        }
    }

    /// What a reader reads of the cell, by these names.
    pub fn text(&self, alloc: Global, names: &Names, reader: Reader) -> Result<String, NoMemory>
        ensures { IfOk result (λ t. string_bytes t ≡ spec.text_for reader names.now self.now) }
    {
        let language = reader.language();
        match self {
            Cell::Empty => copied(alloc, ""),
            Cell::Text(text) | Cell::Prose(text) => copied(alloc, text.as_str()),
            Cell::Number(number) => Ok(number.to_string(alloc)?),
            Cell::Decimal(number) => number.text(alloc),
            Cell::Fraction(num, den) => fraction_text(alloc, *num, *den),
            Cell::Change(number, before) => change_text(alloc, reader, *number, *before),
            Cell::Flag(true) => copied(alloc, language.text(&YES)),
            Cell::Flag(false) => copied(alloc, language.text(&NO)),
            Cell::Word(word) => copied(alloc, language.text(word)),
            Cell::Condition(cond) => condition_text(alloc, language, *cond),
            Cell::Stage(stage) => copied(alloc, names.stage(*stage)),
            Cell::Entry(entry) => names.text(alloc, Length::Short, Scope::All, *entry),
            Cell::EntryName(entry, scope) => names.text(alloc, Length::Full, *scope, *entry),
            Cell::Entries(entries) => {
                names.list(alloc, Length::Short, Scope::All, entries.as_slice(), " ")
            }
            Cell::Claimants(entries, scope) => match reader {
                Reader::Program => names.list(alloc, Length::Short, Scope::All, entries, " "),
                Reader::Person(_) => names.list(alloc, Length::Full, *scope, entries, ", "),
            },
            Cell::Scope(scope) => names.scope(alloc, *scope),
            Cell::ScopeName(scope) => names.scope_name(alloc, language, *scope),
        }
    }
}

//! Sheets: a key, a title, the heads of the columns, and rows.

ghost use Rattle.std.specs.Prelude.{◌≡◌, ◌++◌, ◌∷◌, [], IfOk, OnOk, codes, string_bytes};
ghost use Rattle.sl_report_forms.specs.Heads.{head_key, head_look, head_text, title_text};
ghost use Rattle.sl_report_forms.specs.Tables.{blank_table, contents_of, heads_of, table_of, under, with_heads, with_rows};

use crate::cell::Cell;
use crate::draft::copied;
use crate::names::Names;
use sl_base_quotients::NoMemory;
use sl_explain_texts::{Language, Message};
use sl_law_meaning::Scope;
use std::alloc::Global;

/// How a column looks in aligned text.
#[derive(Clone, Copy)]
pub enum Look {
    /// It is left out. A sheet whose columns are all left out is so too.
    Hidden,
    /// At the left, and cut to so many columns of a terminal.
    Text(usize),
    /// At the right.
    Number,
}

/// A column of a kind of sheets: the key of its cells in CSV and in JSON, what stands over it in English and in German, and its look.
pub type ColumnForm = (&'static str, &'static str, &'static str, Look);

/// The head of a column.
#[derive(Drop)]
pub enum Head {
    Column(ColumnForm),
    /// A word over numbers, which is their key too.
    Word(String),
}

/// The title of a sheet.
#[derive(Clone, Copy)]
pub enum Title {
    Words(Message),
    /// A word before the name of a stage.
    Stage(Message, usize),
    /// A word before the name of a stage and that of a scope in it.
    Scope(Message, usize, Scope),
}

/// A sheet. Sheets of one key have the same columns: they are one table, of which text shows each sheet under its title.
#[derive(Drop)]
pub struct Sheet {
    pub key: &'static str,
    pub title: Title,
    pub heads: Vec<Head>,
    pub rows: Vec<Vec<Cell>>,
}

impl Head {
    /// The key of the cells.
    pub fn key(&self) -> &str
        ensures { result.now ≡ head_key self.now }
    {
        match self {
            Head::Column(column) => column.0,
            Head::Word(word) => word.as_str(),
        }
    }

    // What stands over the column in a language.
    pub(crate) fn text(&self, language: Language) -> &str
        ensures { result.now ≡ head_text language self.now }
    {
        match self {
            Head::Column(column) => language.text(&(column.1, column.2)),
            Head::Word(word) => word.as_str(),
        }
    }

    pub(crate) fn look(&self) -> Look
        ensures { result ≡ head_look self.now }
    {
        match self {
            Head::Column(column) => column.3,
            Head::Word(_) => Look::Number,
        }
    }
}

// A word before a name.
fn titled(alloc: Global, word: &str, name: &str) -> Result<String, NoMemory>
    ensures { IfOk result (λ t. string_bytes t ≡ word.now ++ codes " " ++ name.now) }
{
    Ok(format!(in alloc; "{word} {name}")?)
}

// A title with a name behind it.
fn titled_in(alloc: Global, title: &str, name: &str) -> Result<String, NoMemory>
    ensures { IfOk result (λ t. string_bytes t ≡ title.now ++ codes ", " ++ name.now) }
{
    Ok(format!(in alloc; "{title}, {name}")?)
}

impl Title {
    // The title in a language, by these names.
    pub(crate) fn text(
        self,
        alloc: Global,
        language: Language,
        names: &Names,
    ) -> Result<String, NoMemory>
        ensures { IfOk result (λ t. string_bytes t ≡ title_text language names.now self) }
    {
        match self {
            Title::Words(words) => copied(alloc, language.text(&words)),
            Title::Stage(word, stage) => { titled(alloc, language.text(&word), names.stage(stage)) }
            Title::Scope(word, stage, scope) => {
                let title = titled(alloc, language.text(&word), names.stage(stage))?;
                let scope = names.scope_name(alloc, language, scope)?;
                titled_in(alloc, title.as_str(), scope.as_str())
            }
        }
    }
}

impl Sheet {
    /// A sheet without rows.
    pub fn new(
        alloc: Global,
        key: &'static str,
        title: Title,
        columns: &[ColumnForm],
    ) -> Result<Sheet, NoMemory>
        ensures { IfOk result (λ s. table_of s ≡ blank_table key.now (heads_of columns.now)) }
    {
        let mut sheet = Sheet {
            key,
            title,
            heads: Vec::new(alloc),
            rows: Vec::new(alloc),
        };
        sheet.push_columns(columns).and(Ok(sheet))
    }

    /// Adds columns.
    pub fn push_columns(&mut self, columns: &[ColumnForm]) -> Result<(), NoMemory>
        ensures { OnOk result (table_of self.new ≡ with_heads (table_of self.old) (heads_of columns.now)) }
    {
        for column in columns {
            self.heads.push(Head::Column(*column))?;
        }
        Ok(())
    }

    /// Adds a column of numbers under a word.
    pub fn push_word(&mut self, word: &str) -> Result<(), NoMemory>
        ensures { OnOk result (table_of self.new ≡ with_heads (table_of self.old) (under word.now ∷ [])) }
    {
        let word = String::from_str(*self.heads.allocator(), word)?;
        self.heads.push(Head::Word(word))?;
        Ok(())
    }

    /// Adds a row.
    pub fn push(&mut self, row: Vec<Cell>) -> Result<(), NoMemory>
        ensures { OnOk result (table_of self.new ≡ with_rows (table_of self.old) (contents_of row.items ∷ [])) }
    {
        self.rows.push(row)?;
        Ok(())
    }
}

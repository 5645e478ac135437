//! The words and options of the commands: how each is given, and what it stands for, in both languages. Their names are the same in both.

ghost use Rattle.std.specs.Prelude.{◌≡◌};
ghost use Rattle.sl_terminal_words.specs.Commands.{rule_named};
ghost use Rattle.sl_terminal_words.specs.inner.Rules.{rule_of_word};

use sl_explain_texts::Message;

/// How a word is given to a command.
#[derive(Clone, Copy)]
pub enum Given {
    /// In its place, and it has to be there.
    Needed,
    /// In its place, or left out.
    Optional,
    /// In its place, any number of times.
    Repeated,
    /// By its name, and not together with these.
    Flag(&'static [&'static str]),
    /// By its name or by a letter.
    Letter(char),
    /// By its name, with a value that the help calls so.
    Value(Message),
    /// The same, and only together with the flag of this name.
    Beside(Message, &'static str),
    /// By its name, with one of these values.
    Choice(Message, &'static [&'static str]),
    /// The same, any number of times, and only together with the word of this name.
    Choices(Message, &'static [&'static str], &'static str),
}

/// A word of a command: its name, how it is given, and what it stands for.
pub struct Word {
    pub name: &'static str,
    pub given: Given,
    pub help: Message,
}

/// The name of the option that `clap` adds to every command, and of its command.
pub(crate) const HELP_NAME: &str = "help";

// The words, a row each.
#[rattlefmt::skip]
mod rows {
    use super::{Given, HELP_NAME, Word};
    use crate::texts::words as texts;
    use sl_explain_texts::LANGUAGE_WORDS;

    pub(super) static BOOK: Word = Word { name: "BOOK", given: Given::Needed, help: texts::BOOK_HELP };
    pub(super) static OPTIONAL_BOOK: Word = Word { name: "BOOK", given: Given::Optional, help: texts::BOOK_HELP };
    pub(super) static BOOKS: Word = Word { name: "BOOK", given: Given::Repeated, help: texts::BOOKS_HELP };
    pub(super) static RETURNS: Word = Word { name: "RETURNS", given: Given::Needed, help: texts::RETURNS_HELP };
    pub(super) static STAGE_NAME: Word = Word { name: "NAME", given: Given::Needed, help: texts::STAGE_NAME_HELP };
    pub(super) static OUT: Word = Word { name: "OUT", given: Given::Needed, help: texts::OUT_HELP };
    pub(super) static CODE_FILE: Word = Word { name: "CODE", given: Given::Needed, help: texts::CODE_FILE_HELP };
    pub(super) static STATUTE: Word = Word { name: "NAME", given: Given::Needed, help: texts::STATUTE_HELP };
    pub(super) static FAULT_CODE: Word = Word { name: "CODE", given: Given::Needed, help: texts::FAULT_CODE_HELP };
    pub(super) static SHORT: Word = Word { name: "short", given: Given::Flag(&[]), help: texts::SHORT_HELP };
    pub(super) static MARKDOWN: Word = Word { name: "markdown", given: Given::Flag(&[]), help: texts::MARKDOWN_HELP };
    pub(super) static HTML: Word = Word { name: "html", given: Given::Flag(&["markdown"]), help: texts::HTML_HELP };
    pub(super) static JSON: Word = Word { name: "json", given: Given::Flag(&["markdown", "html"]), help: texts::JSON_HELP };
    pub(super) static PLAIN_JSON: Word = Word { name: "json", given: Given::Flag(&[]), help: texts::JSON_HELP };
    pub(super) static CSV: Word = Word { name: "csv", given: Given::Flag(&["markdown", "html", "json"]), help: texts::CSV_HELP };
    pub(super) static BEFORE: Word = Word { name: "before", given: Given::Beside(texts::FILE_VALUE, "short"), help: texts::BEFORE_HELP };
    pub(super) static METHOD: Word = Word { name: "method", given: Given::Choices(texts::METHOD_VALUE, &["webster", "jefferson", "adams", "dean", "hill", "hamilton"], "BOOK"), help: texts::METHOD_HELP };
    pub(super) static NAMES: Word = Word { name: "names", given: Given::Value(texts::FILE_VALUE), help: texts::NAMES_HELP };
    pub(super) static QUIET: Word = Word { name: "quiet", given: Given::Letter('q'), help: texts::QUIET_HELP };
    pub(super) static LANGUAGE: Word = Word { name: "lang", given: Given::Choice(texts::LANGUAGE_VALUE, &LANGUAGE_WORDS), help: texts::LANGUAGE_HELP };
    pub(super) static FORCE: Word = Word { name: "force", given: Given::Flag(&[]), help: texts::FORCE_HELP };
    pub(super) static HELP: Word = Word { name: HELP_NAME, given: Given::Letter('h'), help: texts::HELP_HELP };
    // The option that it adds to the program.
    pub(super) static VERSION: Word = Word { name: "version", given: Given::Letter('V'), help: texts::VERSION_HELP };
}

/// A word by its name alone.
#[derive(Clone, Copy)]
pub enum WordName {
    Book,
    OptionalBook,
    Books,
    Returns,
    StageName,
    Out,
    CodeFile,
    Statute,
    FaultCode,
    Short,
    Markdown,
    Html,
    Json,
    /// JSON of a command that has no other form: the flag stands alone, tied to no other word.
    PlainJson,
    Csv,
    Before,
    Method,
    Names,
    Quiet,
    Language,
    Force,
    /// The option that `clap` adds to every command.
    Help,
    /// The option that it adds to the program.
    Version,
}

impl WordName {
    /// The word.
    pub(crate) fn word(self) -> &'static Word
        ensures { rule_of_word result.now ≡ rule_named self }
    {
        match self {
            WordName::Book => &rows::BOOK,
            WordName::OptionalBook => &rows::OPTIONAL_BOOK,
            WordName::Books => &rows::BOOKS,
            WordName::Returns => &rows::RETURNS,
            WordName::StageName => &rows::STAGE_NAME,
            WordName::Out => &rows::OUT,
            WordName::CodeFile => &rows::CODE_FILE,
            WordName::Statute => &rows::STATUTE,
            WordName::FaultCode => &rows::FAULT_CODE,
            WordName::Short => &rows::SHORT,
            WordName::Markdown => &rows::MARKDOWN,
            WordName::Html => &rows::HTML,
            WordName::Json => &rows::JSON,
            WordName::PlainJson => &rows::PLAIN_JSON,
            WordName::Csv => &rows::CSV,
            WordName::Before => &rows::BEFORE,
            WordName::Method => &rows::METHOD,
            WordName::Names => &rows::NAMES,
            WordName::Quiet => &rows::QUIET,
            WordName::Language => &rows::LANGUAGE,
            WordName::Force => &rows::FORCE,
            WordName::Help => &rows::HELP,
            WordName::Version => &rows::VERSION,
        }
    }
}

/// The options of every command, of the one that writes a file, and those of a command that reports.
pub(crate) const OPTIONS: [WordName; 2] = [WordName::Quiet, WordName::Language];

pub(crate) const CODE_OPTIONS: [WordName; 3] = [
    WordName::Force,
    WordName::Quiet,
    WordName::Language,
];

/// Those of `count` and `steps`.
pub(crate) const COUNT_OPTIONS: [WordName; 3] = [
    WordName::PlainJson,
    WordName::Quiet,
    WordName::Language,
];

/// Those of `report`.
pub(crate) const COUNT_REPORT_OPTIONS: [WordName; 9] = [
    WordName::Short,
    WordName::Before,
    WordName::Markdown,
    WordName::Html,
    WordName::Json,
    WordName::Csv,
    WordName::Names,
    WordName::Quiet,
    WordName::Language,
];

/// Those of `compare`.
pub(crate) const COMPARE_OPTIONS: [WordName; 8] = [
    WordName::Method,
    WordName::Markdown,
    WordName::Html,
    WordName::Json,
    WordName::Csv,
    WordName::Names,
    WordName::Quiet,
    WordName::Language,
];

pub(crate) const REPORT_OPTIONS: [WordName; 7] = [
    WordName::Markdown,
    WordName::Html,
    WordName::Json,
    WordName::Csv,
    WordName::Names,
    WordName::Quiet,
    WordName::Language,
];

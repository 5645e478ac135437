//! The languages. A new one is a variant here, and one more field of each message.

ghost use Rattle.std.specs.Prelude.{◌≡◌};
ghost use Rattle.sl_explain_texts.specs.Languages.{error_word, in_language, language_of, language_word, locale_language, warning_word};

use crate::message::Message;

/// The language in which a person is spoken to.
#[derive(Clone, Copy, PartialEq, Eq)]
pub enum Language {
    English,
    German,
}

/// The languages.
pub const LANGUAGES: [Language; 2] = [Language::German, Language::English];

/// Their words, as `--lang` takes them.
pub const LANGUAGE_WORDS: [&str; 2] = ["de", "en"];

impl Language {
    /// A message in the language.
    pub fn text(self, message: &Message) -> &'static str
        ensures { result.now ≡ in_language self message.now }
    {
        match self {
            Language::English => message.0,
            Language::German => message.1,
        }
    }

    /// The word that asks for it.
    pub fn word(self) -> &'static str
        ensures { result.now ≡ language_word self }
    {
        match self {
            Language::English => "en",
            Language::German => "de",
        }
    }

    /// The language that a word asks for, if there is one.
    pub fn of_word(word: &str) -> Option<Language>
        ensures { result ≡ language_of word.now }
    {
        LANGUAGES
            .iter()
            .copied()
            .find(|language| language.word() == word)
    }

    /// The language with whose word a locale begins, as `de_DE.UTF-8`, if there is one.
    pub fn of_locale(locale: &str) -> Option<Language>
        ensures { result ≡ locale_language locale.now }
    {
        LANGUAGES.iter().copied().find(|language| locale
            .as_bytes()
            .starts_with(language.word().as_bytes()))
    }

    /// The word for an error.
    pub fn error_word(self) -> &'static str
        ensures { result.now ≡ error_word self }
    {
        match self {
            Language::English => "error",
            Language::German => "Fehler",
        }
    }

    /// The word for a warning.
    pub fn warning_word(self) -> &'static str
        ensures { result.now ≡ warning_word self }
    {
        match self {
            Language::English => "warning",
            Language::German => "Warnung",
        }
    }
}

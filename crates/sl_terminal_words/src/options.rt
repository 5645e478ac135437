//! The options that each command takes: whether it explains a refusal, and in which language.

ghost use Rattle.std.specs.Prelude.{◌≡◌, [], map, string_bytes};
ghost use Rattle.clap.specs.Words.{found_of, rows_of};
ghost use Rattle.sl_terminal_words.specs.Answers.{first_language, language_given};
ghost use Rattle.sl_terminal_words.specs.Requests.{options_by};

use crate::given::{flag_in, word_in};
use clap::ArgMatches;
use sl_explain_texts::Language;

/// How a command speaks on standard error.
#[derive(Clone, Copy)]
pub struct Options {
    /// It omits its explanations.
    pub is_quiet: bool,
    /// The language that is asked for, if any is.
    pub language: Option<Language>,
}

/// The options that are given to a command.
pub(crate) fn options_of(given: &ArgMatches<'_>) -> Options
    ensures { result ≡ options_by (rows_of (found_of given.now)) }
{
    Options {
        is_quiet: flag_in(given, "quiet"),
        language: word_in(given, "lang").and_then(Language::of_word),
    }
}

// The word for a language that a word gives, behind `--lang=` or with `--lang` before it; an empty one if it gives none.
fn language_given<'a>(before: &str, word: &'a str) -> &'a str
    ensures { result.now ≡ language_given before.now word.entry.now }
{
    match word.strip_prefix("--lang=") {
        Some(value) => value,
        None if before == "--lang" => word,
        None => "",
    }
}

/// The language that `--lang` asks for among words that may be refused, wherever it stands there; of several the first.
pub(crate) fn language_in(words: &[String]) -> Option<Language>
    ensures { result ≡ first_language [] (map string_bytes words.now) }
{
    let mut before = "";
    for word in words {
        let word = word.as_str();
        let language = Language::of_word(language_given(before, word));
        if language.is_some() {
            return language;
        }
        before = word;
    }
    None
}

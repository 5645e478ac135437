//! What is given to a command, by the names of its words.

ghost use Rattle.std.specs.Prelude.{◌≡◌, IfOk, map, option_map};
ghost use Rattle.clap.specs.Words.{found_of, rows_of};
ghost use Rattle.sl_terminal_words.specs.Requests.{flag_in, word_in, words_in};

use clap::ArgMatches;
use std::alloc::{AllocError, Global};

/// The word that is given by a name.
pub(crate) fn word_in<'a>(given: &ArgMatches<'a>, name: &str) -> Option<&'a str>
    ensures { option_map (λ word. word.now) result ≡ word_in (rows_of (found_of given.now)) name.now }
{
    given.get_str(name)
}

/// All words that are given by a name.
pub(crate) fn words_in<'a>(
    alloc: Global,
    given: &ArgMatches<'a>,
    name: &str,
) -> Result<Vec<&'a str>, AllocError>
    ensures { IfOk result (λ words. map (λ word. word.now) words.items ≡ words_in (rows_of (found_of given.now)) name.now) }
{
    match given.get_strs(name) {
        Some(words) => Vec::from_slice(alloc, words),
        None => Ok(Vec::new(alloc)),
    }
}

/// Whether a flag is given.
pub(crate) fn flag_in(given: &ArgMatches<'_>, name: &str) -> bool
    ensures { result ≡ flag_in (rows_of (found_of given.now)) name.now }
{
    given.get_one(name).unwrap_or(false)
}

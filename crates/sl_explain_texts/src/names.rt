//! The name that a misspelt one was likely meant for, and names that stand for a sum.

ghost use Rattle.std.specs.Prelude.{◌≡◌};
ghost use Rattle.std.specs.Str.{str_eq_ignore_ascii_case};
ghost use Rattle.sl_explain_texts.specs.Sums.{is_sum};

use sl_base_quotients::NoMemory;
use std::alloc::Global;
use strsim::generic_damerau_levenshtein;

// The most edits by which a word of that many bytes is taken for a misspelt one.
fn most_edits(length: usize) -> usize {
    match length {
        0..=2 => 0,
        3..=5 => 1,
        _ => 2,
    }
}

// How many edits part a name from a word in small letters; two neighbours exchanged are one.
fn edits_between(alloc: Global, small: &[u8], name: &[u8]) -> Result<usize, NoMemory> {
    let other = name.to_ascii_lowercase(alloc)?;
    Ok(generic_damerau_levenshtein(alloc, small, other.as_slice())?)
}

/// Of some names the first that the fewest edits part from a word, if they are few: one in a short word, two in a longer one. An edit is a
/// letter too many, too few or another one, or two neighbours exchanged. Letters in another case part nothing.
pub fn nearest<'a>(
    alloc: Global,
    word: &[u8],
    names: &[&'a [u8]],
) -> Result<Option<&'a [u8]>, NoMemory> {
    let small = word.to_ascii_lowercase(alloc)?;
    let mut found = None;
    let mut least = most_edits(word.len()).saturating_add(1);
    for name in names {
        let edits = edits_between(alloc, small.as_slice(), name)?;
        if edits < least {
            least = edits;
            found = Some(*name);
        }
    }
    Ok(found)
}

// Whether a name is a word, in capital or in small letters.
fn is_word(name: &[u8], word: &str) -> bool
    ensures { result ≡ str_eq_ignore_ascii_case name.now word.now }
{
    name.eq_ignore_ascii_case(word.as_bytes())
}

/// Whether a name, in capital or in small letters, is what a row of sums is called, such as `Insgesamt`.
pub fn is_sum(name: &[u8]) -> bool
    ensures { result ≡ is_sum name.now }
{
    is_word(name, "total")
        || is_word(name, "totals")
        || is_word(name, "sum")
        || is_word(name, "summe")
        || is_word(name, "summen")
        || is_word(name, "gesamt")
        || is_word(name, "insgesamt")
        || is_word(name, "zusammen")
        || is_word(name, "alle")
        || is_word(name, "all")
        || is_word(name, "bund")
        || is_word(name, "bundesgebiet")
        || is_word(name, "deutschland")
}

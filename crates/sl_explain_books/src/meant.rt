//! Words of other languages and of other books for those of the language.

// Names of methods, in small letters, and their keywords.
const METHODS: [(&[u8], &[u8]); 22] = [
    (b"sainte", b"webster"),
    (b"saintelague", b"webster"),
    (b"sainte_lague", b"webster"),
    (b"lague", b"webster"),
    (b"schepers", b"webster"),
    (b"dhondt", b"jefferson"),
    (b"d_hondt", b"jefferson"),
    (b"hondt", b"jefferson"),
    (b"hagenbach", b"jefferson"),
    (b"bischoff", b"jefferson"),
    (b"hagenbach_bischoff", b"jefferson"),
    (b"hare", b"hamilton"),
    (b"niemeyer", b"hamilton"),
    (b"hare_niemeyer", b"hamilton"),
    (b"hareniemeyer", b"hamilton"),
    (b"vinton", b"hamilton"),
    (b"largest_remainder", b"hamilton"),
    (b"largest_remainders", b"hamilton"),
    (b"groesste_reste", b"hamilton"),
    (b"huntington", b"hill"),
    (b"huntingtonhill", b"hill"),
    (b"huntington_hill", b"hill"),
];

// Other words, in small letters, and the keywords that they mean.
const WORDS: [(&[u8], &[u8]); 13] = [
    (b"parties", b"party"),
    (b"partei", b"party"),
    (b"parteien", b"party"),
    (b"lands", b"land"),
    (b"laender", b"land"),
    (b"state", b"land"),
    (b"states", b"land"),
    (b"total", b"all"),
    (b"alle", b"all"),
    (b"votes", b"counted"),
    (b"winner", b"winners"),
    (b"sieger", b"winners"),
    (b"minorities", b"minority"),
];

// The keyword that stands in a table for a word.
fn found(table: &[(&[u8], &'static [u8])], word: &[u8]) -> Option<&'static [u8]> {
    let found = table
        .iter()
        .copied()
        .find(|row| word.eq_ignore_ascii_case(row.0));
    found.map(|row| row.1)
}

/// The keyword of a method that is called by another name, if there is one.
pub fn method_of(word: &[u8]) -> Option<&'static [u8]> {
    found(METHODS.as_slice(), word)
}

/// The keyword that another word means, if it does.
pub fn keyword_of(word: &[u8]) -> Option<&'static [u8]> {
    found(WORDS.as_slice(), word)
}

/// Whether a word names the method of Droop, which the language lacks.
pub fn is_droop(word: &[u8]) -> bool {
    word.eq_ignore_ascii_case(b"droop")
}

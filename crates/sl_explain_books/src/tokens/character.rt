//! Characters that begin no token, and those that a text in quotes may not have.

ghost use Rattle.std.specs.Prelude.{◌≡◌, IfOk, Some};
ghost use Rattle.sl_explain_texts.specs.Messages.{IsFilledBy, IsSaidBy};
ghost use Rattle.sl_explain_texts.specs.declared.code.FaultCode.TheVariants.{B03, B04};

use crate::meant::method_of;
use crate::pieces::{character_len, piece, span_within};
use crate::texts::meant::METHOD;
use crate::texts::tokens as texts;
use sl_base_quotients::NoMemory;
use sl_explain_texts::{Explainer, Message, Sentence, Span, Speaker};

// The letters that stand just before an offset.
fn letters_before(text: &[u8], at: usize) -> &[u8] {
    let front = text.get(..at).unwrap_or(&[]);
    let behind = front
        .iter()
        .rev()
        .take_while(|byte| byte.is_ascii_alphabetic())
        .count();
    front.get(at.saturating_sub(behind)..).unwrap_or(&[])
}

// The keyword of the method whose name a character parts, as in `sainte-lague` or `d'hondt`.
fn parted_method(text: &[u8], at: usize) -> Option<&'static [u8]> {
    let word = letters_before(text, at);
    match byte_at(text, at) {
        b'\'' if word.eq_ignore_ascii_case(b"d") => method_of(b"dhondt"),
        b'-' | b'/' => method_of(word),
        _ => None,
    }
}

// What to do about a character of ASCII, by the bytes beside it.
fn ascii_remedy(text: &[u8], at: usize) -> &'static Message
    ensures { IsFilledBy result.now 0 }
{
    let before = byte_at(text, at.saturating_sub(1));
    let next = byte_at(text, at.saturating_add(1));
    match byte_at(text, at) {
        b'<' | b'>' | b'{' | b'[' | b'%' | b'.' if at == 0 => &texts::RIGHT_FILE,
        b'%' => &texts::PERCENT,
        b'.' => &texts::POINT,
        b'/' if next == b'/' || next == b'*' => &texts::COMMENT,
        b'-' if next == b'-' => &texts::COMMENT,
        b'-' => &texts::HYPHEN,
        b'/' if before.is_ascii_digit() => &texts::PERCENT,
        b'/' | b'*' | b'+' | b'^' => &texts::ARITHMETIC,
        b'\'' | b'`' => &texts::QUOTES,
        b'<' | b'>' => &texts::COMPARED,
        b':' => &texts::COLON,
        b'[' | b']' | b'{' | b'}' => &texts::BRACKETS,
        b'_' => &texts::UNDERSCORE,
        b'@' => &texts::AT_SIGN,
        _ => &texts::PLAIN,
    }
}

// Quotation marks of every shape but `"`: those of U+2018 to U+201F, and the angled ones.
fn is_curly(character: &[u8]) -> bool {
    match character {
        [0xE2, 0x80, 0x98..=0x9F] => true,
        [0xC2, 0xAB | 0xBB | 0xB4] => true,
        [0xE2, 0x80, 0xB9 | 0xBA] => true,
        _ => false,
    }
}

// Blanks that are no blank of the language, and marks that no editor shows.
fn is_special_blank(character: &[u8]) -> bool {
    match character {
        [0xC2, 0xA0 | 0xAD | 0x85] => true,
        [0xE2, 0x80, 0x80..=0x8F | 0xA8..=0xAF] => true,
        [0xE2, 0x81, 0x9F..=0xA4] => true,
        [0xEF, 0xBB, 0xBF] => true,
        [0xE3, 0x80, 0x80] => true,
        _ => false,
    }
}

// Dashes of U+2010 to U+2015, and the minus sign.
fn is_dash(character: &[u8]) -> bool {
    matches!(character, [0xE2, 0x80, 0x90..=0x95] | [0xE2, 0x88, 0x92])
}

// What is said of a character of several bytes.
fn wide_texts(character: &[u8]) -> (&'static Sentence, &'static Message)
    ensures sentence { IsSaidBy result.0.now 1 × (result.0.now.0 ≡ B03) }
    ensures remedy { IsFilledBy result.1.now 0 }
{
    if is_special_blank(character) {
        (&texts::INVISIBLE, &texts::BLANK)
    } else if is_curly(character) {
        (&texts::NO_LETTER, &texts::QUOTES)
    } else if is_dash(character) {
        (&texts::NO_LETTER, &texts::HYPHEN)
    } else {
        (&texts::NO_LETTER, &texts::LETTER)
    }
}

// A character above ASCII.
fn explain_wide(speaker: Speaker, character: &[u8], span: Span) -> Explainer
    ensures { result.code ≡ Some B03 }
{
    let (sentence, remedy) = wide_texts(character);
    let explainer = speaker.says_at(sentence, &[character], span);
    explainer.helped(remedy, &[])
}

// The number of a byte, as it is shown.
fn number_of(speaker: Speaker, byte: u8) -> Result<Vec<u8>, NoMemory> {
    Ok(format!(in speaker.alloc; "0x{byte:02x}")?.into_bytes())
}

// The character at an offset.
fn character_span(text: &[u8], at: usize) -> Span {
    let length = character_len(text.get(at..).unwrap_or(&[]));
    span_within(text, at, at.saturating_add(length))
}

fn byte_at(text: &[u8], at: usize) -> u8 {
    text.get(at).copied().unwrap_or(0)
}

// A character of ASCII that is shown as it is.
fn explain_ascii(speaker: Speaker, text: &[u8], at: usize, span: Span) -> Explainer
    ensures { result.code ≡ Some B03 }
{
    let explainer = speaker.says_at(&texts::UNEXPECTED, &[piece(text, span)], span);
    match parted_method(text, at) {
        Some(method) => explainer.helped(&METHOD, &[method]),
        None => explainer.helped(ascii_remedy(text, at), &[]),
    }
}

/// Explains the character at an offset, which no token begins with.
pub fn explain_character(speaker: Speaker, text: &[u8], at: usize) -> Result<Explainer, NoMemory>
    ensures { IfOk result (λ x. x.code ≡ Some B03) }
{
    let span = character_span(text, at);
    let character = piece(text, span);
    if character.len() > 1 {
        return Ok(explain_wide(speaker, character, span));
    }
    let byte = byte_at(text, at);
    let number = number_of(speaker, byte)?;
    Ok(match byte {
        0x80.. => speaker
            .says_at(&texts::NO_CHARACTER, &[number.as_slice()], span)
            .helped(&texts::ENCODING, &[]),
        0..=0x1F | 0x7F => speaker
            .says_at(&texts::CONTROL, &[number.as_slice()], span)
            .helped(&texts::PLAIN, &[]),
        _ => explain_ascii(speaker, text, at, span),
    })
}

/// Explains the character at an offset, which a text in quotes may not have.
pub fn explain_in_text(speaker: Speaker, text: &[u8], at: usize) -> Result<Explainer, NoMemory>
    ensures { IfOk result (λ x. x.code ≡ Some B04) }
{
    let span = character_span(text, at);
    let character = piece(text, span);
    if character.len() > 1 {
        let remedy = if is_curly(character) {
            &texts::QUOTES
        } else {
            &texts::TEXT_LETTER
        };
        let explainer = speaker.says_at(&texts::IN_TEXT, &[character], span);
        return Ok(explainer.helped(remedy, &[]));
    }
    let byte = byte_at(text, at);
    let remedy = if byte < 0x80 {
        &texts::TEXT_PLAIN
    } else {
        &texts::ENCODING
    };
    let number = number_of(speaker, byte)?;
    let explainer = speaker.says_at(&texts::BYTE_IN_TEXT, &[number.as_slice()], span);
    Ok(explainer.helped(remedy, &[]))
}

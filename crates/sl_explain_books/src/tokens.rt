//! Why a text has no tokens, explained.

ghost use Rattle.std.specs.Prelude.{◌≡◌, IfOk, Some};
ghost use Rattle.sl_explain_texts.specs.declared.code.FaultCode.TheVariants.{B04, B05, B06};
ghost use Rattle.sl_explain_books.specs.Codes.{token_code};

mod character;

use crate::meant::method_of;
use crate::near::help_nearest_or;
use crate::pieces::{piece, span_within, token_span};
use crate::texts::meant::METHOD;
use crate::texts::tokens as texts;
use crate::whole::explain_whole;
use character::{explain_character, explain_in_text};
use sl_base_quotients::{MAX_NAME_BYTES, NoMemory};
use sl_explain_texts::{Explainer, Explanation, FaultCode, Language, Speaker};
use sl_lex::LexFault;
use std::alloc::Global;

// The longest keywords, which a word of more bytes may be meant for.
const LONG_KEYWORDS: [&[u8]; 2] = [b"independents", b"population"];

// How many bytes a text has after its first quote, up to one that it may not have.
fn inner_len(rest: &[u8]) -> usize {
    rest.iter()
        .skip(1)
        .take_while(|byte| matches!(**byte, 0x20..=0x7E) && **byte != b'"')
        .count()
}

// A text in quotes that is not closed, or has a character that it may not have.
fn explain_open(speaker: Speaker, text: &[u8], at: usize) -> Result<Explainer, NoMemory>
    ensures { IfOk result (λ x. x.code ≡ Some B04) }
{
    let inner = inner_len(text.get(at..).unwrap_or(&[]));
    let stop = at.saturating_add(inner).saturating_add(1);
    match text.get(stop).copied() {
        None | Some(b'\n' | b'\r') => {
            let explainer = speaker.says_at(&texts::NOT_CLOSED, &[], span_within(text, at, stop));
            Ok(explainer.helped(&texts::NOT_CLOSED_REMEDY, &[]))
        }
        Some(_) => explain_in_text(speaker, text, stop),
    }
}

// A number that is too great.
fn explain_number(speaker: Speaker, text: &[u8], at: usize) -> Explainer
    ensures { result.code ≡ Some B05 }
{
    let span = token_span(text, at);
    speaker
        .says_at(&texts::BIG_NUMBER, &[piece(text, span)], span)
        .helped(&texts::BIG_NUMBER_REMEDY, &[])
}

// A word that is too long.
fn explain_word(speaker: Speaker, text: &[u8], at: usize) -> Result<Explainer, NoMemory>
    ensures { IfOk result (λ x. x.code ≡ Some B06) }
{
    let span = token_span(text, at);
    let word = piece(text, span);
    let length = speaker.number(word.len())?;
    let most = speaker.number(MAX_NAME_BYTES)?;
    let values = [piece(text, span), length.as_slice(), most.as_slice()];
    let mut explainer = speaker.says_at(&texts::LONG_NAME, &values, span);
    if let Some(method) = method_of(word) {
        explainer.helps(&METHOD, &[method]);
    } else {
        help_nearest_or(
            &mut explainer,
            word,
            &LONG_KEYWORDS,
            &texts::LONG_NAME_REMEDY,
        )?;
    }
    Ok(explainer)
}

// What is wrong at an offset.
fn explain_place(speaker: Speaker, text: &[u8], fault: LexFault) -> Result<Explainer, NoMemory>
    ensures { IfOk result (λ x. x.code ≡ token_code fault) }
{
    match fault {
        LexFault::BadByte(at) => explain_character(speaker, text, at),
        LexFault::OpenString(at) => explain_open(speaker, text, at),
        LexFault::BigNumber(at) => Ok(explain_number(speaker, text, at)),
        LexFault::LongName(at) => explain_word(speaker, text, at),
        LexFault::NoMemory => Err(NoMemory),
    }
}

// The code of a fault of tokens.
fn code_of(fault: LexFault) -> Option<FaultCode>
    ensures { result ≡ token_code fault }
{
    match fault {
        LexFault::BadByte(_) => Some(FaultCode::B03),
        LexFault::OpenString(_) => Some(FaultCode::B04),
        LexFault::BigNumber(_) => Some(FaultCode::B05),
        LexFault::LongName(_) => Some(FaultCode::B06),
        LexFault::NoMemory => None,
    }
}

/// Explains why a text has no tokens.
pub fn explain_tokens(
    alloc: Global,
    language: Language,
    text: &[u8],
    fault: LexFault,
) -> Result<Explanation, NoMemory>
    ensures { IfOk result (λ x. x.code ≡ token_code fault) }
{
    let speaker = Speaker { alloc, language };
    let code = code_of(fault).ok_or(NoMemory)?;
    match explain_whole(speaker, text, code) {
        Some(explainer) => explainer.finished(),
        None => explain_place(speaker, text, fault)?.finished(),
    }
}

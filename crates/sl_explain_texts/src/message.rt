//! Messages in each language, and the values that fill their holes.

ghost use Rattle.std.specs.List.{before_first, slice_split, zip};
ghost use Rattle.std.specs.Prelude.{◌≡◌, ◌==◌, ◌++◌, ◌∷◌, ◌<◌, [], IfOk, IfSome, MatchOption, OnOk, flat_map, length, map};
ghost use Rattle.sl_explain_texts.specs.Languages.{lent};
ghost use Rattle.sl_explain_texts.specs.Messages.{holes_of, name_in, opened, put, put_value, says, text_behind, texts_of, value_of};

use crate::code::FaultCode;
use crate::language::Language;
use crate::shown::push_repeated;
use sl_base_quotients::NoMemory;
use std::alloc::Global;

/// A message in English and in German. A name in braces stands for a value, such as `{line}`; `{cell:shown}` for bytes of an input, of which the first
/// are repeated, without control characters.
pub type Message = (&'static str, &'static str);

/// What is said of a fault: the code of the fault, and a message of it in English and in German.
pub type Sentence = (FaultCode, &'static str, &'static str);

// The name in a hole, of which the opening brace is gone, and the text behind it.
fn split_hole(part: &str) -> (&str, &str)
    ensures name { result.0.now ≡ name_in part.now }
    ensures behind { result.1.now ≡ text_behind part.now }
{
    match part.split_once('}') {
        Some(parts) => parts,
        None => (part, ""),
    }
}

// What stands before the first brace that opens a hole, and what behind it, if there is one.
#[tactic(auto, using(std::proofs::lemmas::List::Splits::slice_split_first, crate::proofs::Holes::split_of_one))]
fn split_text(text: &str) -> (&str, Option<&str>)
    ensures before { result.0.now ≡ before_first (λ b. b == 123) text.now }
    ensures holes { MatchOption result.1 (opened text.now ≡ []) (λ rest. opened text.now ≡ slice_split (λ b. b == 123) rest.now) }
    ensures all { slice_split (λ b. b == 123) text.now ≡ result.0.now ∷ opened text.now }
    ensures shorter { IfSome result.1 (λ rest. length rest.now < length text.now) }
{
    match text.split_once('{') {
        Some((before, rest)) => (before, Some(rest)),
        None => (text, None),
    }
}

// Adds the names in holes.
fn push_names<'a>(names: &mut Vec<&'a str>, holes: &'a str) -> Result<(), NoMemory>
    ensures { OnOk result (texts_of names.new.items ≡ texts_of names.old.items ++ map name_in (slice_split (λ b. b == 123) holes.now)) }
{
    let (part, others) = split_text(holes);
    names.push(split_hole(part).0)?;
    match others {
        Some(others) => push_names(names, others),
        None => Ok(()),
    }
}

// The names of the holes of a text, in order.
#[tactic(auto, using(crate::proofs::Holes::holes_opened))]
fn holes_of(alloc: Global, text: &str) -> Result<Vec<&str>, NoMemory>
    ensures { IfOk result (λ names. texts_of names.items ≡ holes_of text.now) }
{
    let mut names = Vec::new(alloc);
    let (_, holes) = split_text(text);
    if let Some(holes) = holes {
        push_names(&mut names, holes)?;
    }
    Ok(names)
}

// The value of a name, where each name has its value at the same place.
fn value_of<'a>(names: &[&str], values: &[&'a [u8]], name: &str) -> &'a [u8]
    ensures { result.now ≡ value_of (zip (texts_of names.now) (texts_of values.now)) name.now }
{
    let (Some((own, names)), Some((value, values))) = (names.split_first(), values.split_first())
    else {
        return b"";
    };
    if *own == name {
        value
    } else {
        value_of(names, values, name)
    }
}

// Adds the value of a hole, by its name.
fn push_value(text: &mut Vec<u8>, name: &str, value: &[u8]) -> Result<(), NoMemory>
    ensures { OnOk result (text.new.items ≡ text.old.items ++ put_value name.now value.now) }
{
    if name.as_bytes().ends_with(b":shown") {
        push_repeated(text, value)
    } else {
        Ok(text.extend_from_slice(value)?)
    }
}

// Adds the value of a hole, and the text behind it.
fn push_part(
    text: &mut Vec<u8>,
    part: &str,
    names: &[&str],
    values: &[&[u8]],
) -> Result<(), NoMemory>
    ensures { OnOk result (text.new.items ≡ text.old.items ++ put (zip (texts_of names.now) (texts_of values.now)) part.now) }
{
    let (name, behind) = split_hole(part);
    push_value(text, name, value_of(names, values, name))?;
    text.extend_from_slice(behind.as_bytes())?;
    Ok(())
}

// Adds the values of holes and the texts behind them.
fn push_parts(
    text: &mut Vec<u8>,
    holes: &str,
    names: &[&str],
    values: &[&[u8]],
) -> Result<(), NoMemory>
    ensures { OnOk result (text.new.items ≡ text.old.items ++ flat_map (put (zip (texts_of names.now) (texts_of values.now))) (slice_split (λ b. b == 123) holes.now)) }
{
    let (part, others) = split_text(holes);
    push_part(text, part, names, values)?;
    match others {
        Some(others) => push_parts(text, others, names, values),
        None => Ok(()),
    }
}

/// The text of a message in a language, with these values in its holes, one for each of the English text, in their order. A hole without one is left
/// empty.
pub(crate) fn filled(
    alloc: Global,
    language: Language,
    message: &Message,
    values: &[&[u8]],
) -> Result<Vec<u8>, NoMemory>
    ensures { IfOk result (λ text. text.items ≡ says language (lent message.now) (texts_of values.now)) }
{
    let names = holes_of(alloc, message.0)?;
    let (before, holes) = split_text(language.text(message));
    let mut text = Vec::new(alloc);
    text.extend_from_slice(before.as_bytes())?;
    if let Some(holes) = holes {
        push_parts(&mut text, holes, names.as_slice(), values)?;
    }
    Ok(text)
}

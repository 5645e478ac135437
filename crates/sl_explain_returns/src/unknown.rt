//! Names that no record before declares.

ghost use Rattle.std.specs.Prelude.{◌≡◌, IfOk, IfSome, Some};
ghost use Rattle.sl_explain_returns.specs.Places.{Explains};
ghost use Rattle.sl_explain_texts.specs.declared.code.FaultCode.TheVariants.{R07};
ghost use Rattle.sl_explain_texts.specs.Explainers.{Keeps};
ghost use Rattle.sl_explain_texts.specs.Messages.{IsFilledBy};

use crate::case::Case;
use crate::texts::unknown as texts;
use sl_base_quotients::NoMemory;
use sl_explain_texts::{Explainer, FaultCode, Message, is_sum, nearest};
use sl_returns::{A, Before, Content, KIND, Kind, LAND, Named, PARTY};
use sl_stages::Returns;
use std::alloc::Global;

// The most names that are listed where another one stands.
const MOST_NAMES: usize = 16;

// What is written for a winner without a party, in small letters.
#[rattlefmt::skip]
const WITHOUT_PARTY: [&[u8]; 8] = [b"parteilos", b"none", b"independent", b"einzelbewerber", b"unabhaengig", b"ohne", b"keine", b"na"];

// What is said of a name, and how it is declared.
fn name_messages(named: Named) -> (&'static Message, &'static Message)
    ensures { IsFilledBy result.0.now 1 × IsFilledBy result.1.now 1 }
{
    match named {
        Named::Land => (&texts::NO_LAND, &texts::DECLARE_LAND),
        Named::Party => (&texts::NO_PARTY, &texts::DECLARE_PARTY),
        Named::Constituency => (&texts::NO_WIN, &texts::DECLARE_WIN),
    }
}

// The kind of record that declares a name, and the column in which it does.
fn declaring(named: Named) -> (Kind, usize) {
    match named {
        Named::Land => (Kind::Land, LAND),
        Named::Party => (Kind::Party, PARTY),
        Named::Constituency => (Kind::Win, A),
    }
}

// The names that the records before have, of those that returns have.
fn names_of(
    alloc: Global,
    returns: &Returns,
    before: Before,
    named: Named,
) -> Result<Vec<&[u8]>, NoMemory> {
    let mut names = Vec::new(alloc);
    match named {
        Named::Land => {
            for land in 0..before.lands.min(returns.lands()) {
                names.push(returns.land_name(land))?;
            }
        }
        Named::Party => {
            for party in 0..before.parties.min(returns.parties()) {
                names.push(returns.party_name(party))?;
            }
        }
        Named::Constituency => {
            for win in 0..before.wins.min(returns.wins()) {
                names.push(returns.win_name(win))?;
            }
        }
    }
    Ok(names)
}

// Whether a name has one of the first numbers.
fn is_among(number: Option<usize>, first: usize) -> bool {
    matches!(number, Some(number) if number < first)
}

// What is said where a name stands in the column of another.
fn exchanged(case: &Case<'_>, named: Named, name: &[u8]) -> Option<&'static Message>
    ensures { IfSome result (λ x. IsFilledBy x.now 1) }
{
    let before = case.refused.before;
    let taken = case.taken;
    match named {
        Named::Land if is_among(taken.find_party(name), before.parties) => Some(&texts::IS_PARTY),
        Named::Party if is_among(taken.find_land(name), before.lands) => Some(&texts::IS_LAND),
        Named::Land | Named::Party | Named::Constituency => None,
    }
}

// Whether a name is one of these words, which stand in small letters.
fn is_one_of(words: &[&[u8]], name: &[u8]) -> bool {
    words.iter().any(|word| name.eq_ignore_ascii_case(word))
}

// A name without the zeros at its beginning.
fn without_zeros(name: &[u8]) -> &[u8] {
    let zeros = name.iter().take_while(|byte| **byte == b'0').count();
    name.get(zeros..).unwrap_or(name)
}

// The name that differs by zeros at the beginning alone, or else one that is near.
fn likely_name<'a>(
    alloc: Global,
    name: &[u8],
    names: &[&'a [u8]],
) -> Result<Option<&'a [u8]>, NoMemory> {
    let number = without_zeros(name);
    match names.iter().find(|other| without_zeros(other) == number) {
        Some(other) => Ok(Some(*other)),
        None => nearest(alloc, name, names),
    }
}

// How the names that there are begin.
fn above_message(named: Named) -> &'static Message
    ensures { IsFilledBy result.now 1 }
{
    match named {
        Named::Land => &texts::LANDS_ABOVE,
        Named::Party => &texts::PARTIES_ABOVE,
        Named::Constituency => &texts::WINS_ABOVE,
    }
}

// Adds which names there are, if they are few.
fn add_names(explainer: &mut Explainer, named: Named, names: &[&[u8]])
    ensures { Keeps explainer.old explainer.new }
{
    if !names.is_empty() && names.len() <= MOST_NAMES {
        let names = explainer.speaker().all_quoted(names);
        explainer.helps_with(above_message(named), names);
    }
}

// Adds a name that is likely meant, or which names there are, or that a row of sums is deleted.
fn add_nearest(
    case: &Case<'_>,
    named: Named,
    name: &[u8],
    explainer: &mut Explainer,
) -> Result<(), NoMemory>
    ensures { Keeps explainer.old explainer.new }
{
    if is_sum(name) {
        explainer.helps(&texts::NO_SUMS, &[]);
        return Ok(());
    }
    let alloc = case.speaker.alloc;
    let names = names_of(alloc, case.taken, case.refused.before, named)?;
    match likely_name(alloc, name, names.as_slice())? {
        Some(near) => explainer.helps(&texts::NEAREST_NAME, &[near]),
        None => add_names(explainer, named, names.as_slice()),
    }
    Ok(())
}

// The row of a record after this one that declares the name.
fn declared_later(case: &Case<'_>, named: Named, name: &[u8]) -> Result<Option<u32>, NoMemory> {
    let (kind, column) = declaring(named);
    case.find(
        case.refused.fault.row,
        &[(KIND, kind.word()), (column, name)],
    )
}

// The column at fault and what its name stands for, where the cell at fault holds a name that must be known.
fn known_name_at(case: &Case<'_>) -> Option<(usize, Named)> {
    let (column, content) = case.cell_at_fault()?;
    match content {
        Content::KnownName(named) | Content::KnownNameOrNone(named) => Some((column, named)),
        Content::Kind
        | Content::Blank
        | Content::NewName(_)
        | Content::StageName
        | Content::Number(_)
        | Content::NumberOrNone(_) => None,
    }
}

/// The explanation of a name that no record before declares.
pub(crate) fn explain_unknown(case: &Case<'_>) -> Result<Explainer, NoMemory>
    ensures { IfOk result (Explains case.now (Some R07)) }
{
    let Some((column, named)) = known_name_at(case) else {
        return case.explains_row(FaultCode::R07);
    };
    let name = case.text(column);
    let (sentence, declaration) = name_messages(named);
    let mut explainer = case.says(FaultCode::R07, sentence, &[name], case.at(column));
    if let Some(row) = declared_later(case, named, name)? {
        explainer.helps_with(&texts::LATER, case.speaker.number(case.line(row)));
    } else if let Some(message) = exchanged(case, named, name) {
        explainer.helps(message, &[name]);
    } else if case.kind() == Some(Kind::Win) && is_one_of(&WITHOUT_PARTY, name) {
        let values = [case.text(LAND), case.text(A)];
        explainer.helps(&texts::NO_PARTY_OF_WINNER, &values);
    } else {
        add_nearest(case, named, name, &mut explainer)?;
        explainer.helps(declaration, &[name]);
    }
    Ok(explainer)
}

//! The names of returns and of the stages of a book, with full ones where they are given.

ghost use Rattle.std.specs.Prelude.{◌≡◌, IfOk, map, option_map, string_bytes};
ghost use Rattle.sl_report_tables.specs.Naming.{AreNames, short_name, stage_name, stages_in, text_of};

use crate::full_names::FullNames;
use sl_base_quotients::NoMemory;
use sl_report_forms::{Name, Names};
use sl_stages::{Book, Returns, Stage};
use std::alloc::Global;

/// Bytes as text, such as those of a name; no text of bytes that are not UTF-8.
pub(crate) fn text_of(bytes: &[u8]) -> &str
    ensures { result.now ≡ text_of bytes.now }
{
    match std::str::from_utf8(bytes) {
        Ok(text) => text,
        Err(_) => "",
    }
}

/// A text, owned.
pub(crate) fn owned(alloc: Global, text: &str) -> Result<String, NoMemory>
    ensures { IfOk result (λ t. string_bytes t ≡ text.now) }
{
    Ok(String::from_str(alloc, text)?)
}

// A short name with its full one, which is the same where none is given.
fn name_of(alloc: Global, full: &FullNames, name: &[u8]) -> Result<Name, NoMemory>
    ensures { IfOk result (λ n. short_name n ≡ text_of name.now) }
{
    let short = text_of(name);
    let full = full.full(short).unwrap_or(short);
    Ok(Name {
        short: owned(alloc, short)?,
        full: owned(alloc, full)?,
    })
}

fn land_names(alloc: Global, returns: &Returns, full: &FullNames) -> Result<Vec<Name>, NoMemory>
    ensures { IfOk result (λ v. map short_name v.items ≡ map text_of returns.now.land_names) }
{
    let mut names: Vec<Name> = Vec::new(alloc);
    for land in 0..returns.lands() {
        names.push(name_of(alloc, full, returns.land_name(land))?)?;
    }
    Ok(names)
}

fn party_names(alloc: Global, returns: &Returns, full: &FullNames) -> Result<Vec<Name>, NoMemory>
    ensures { IfOk result (λ v. map short_name v.items ≡ map text_of returns.now.party_names) }
{
    let mut names: Vec<Name> = Vec::new(alloc);
    for party in 0..returns.parties() {
        names.push(name_of(alloc, full, returns.party_name(party))?)?;
    }
    Ok(names)
}

fn winner_names(alloc: Global, returns: &Returns, full: &FullNames) -> Result<Vec<Name>, NoMemory>
    ensures { IfOk result (λ v. map short_name v.items ≡ map text_of returns.now.win_names) }
{
    let mut names: Vec<Name> = Vec::new(alloc);
    for win in 0..returns.wins() {
        names.push(name_of(alloc, full, returns.win_name(win))?)?;
    }
    Ok(names)
}

fn names_in(alloc: Global, stages: &[Stage]) -> Result<Vec<String>, NoMemory>
    ensures { IfOk result (λ v. map string_bytes v.items ≡ map stage_name stages.now) }
{
    let mut names: Vec<String> = Vec::new(alloc);
    for stage in stages {
        names.push(owned(alloc, text_of(stage.name.as_bytes()))?)?;
    }
    Ok(names)
}

// The names of the stages of a book; none without one.
fn stage_names(alloc: Global, book: Option<&Book>) -> Result<Vec<String>, NoMemory>
    ensures { IfOk result (λ v. map string_bytes v.items ≡ map stage_name (stages_in (option_map (λ b. b.now) book.entry))) }
{
    match book {
        Some(book) => names_in(alloc, book.stages.as_slice()),
        None => Ok(Vec::new(alloc)),
    }
}

/// The names of returns, and of the stages of a book, if one is given.
pub(crate) fn names_of(
    alloc: Global,
    book: Option<&Book>,
    returns: &Returns,
    full: &FullNames,
) -> Result<Names, NoMemory>
    ensures { IfOk result (AreNames (stages_in (option_map (λ b. b.now) book.entry)) returns.now) }
{
    Ok(Names {
        are_full: !full.is_empty(),
        lands: land_names(alloc, returns, full)?,
        parties: party_names(alloc, returns, full)?,
        winners: winner_names(alloc, returns, full)?,
        stages: stage_names(alloc, book)?,
    })
}

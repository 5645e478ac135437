//! Who takes part, and the warning of one party that does so alone.

ghost use Rattle.std.specs.Prelude.{◌≡◌, ◌<◌, ◌++◌, ◌∷◌, [], IfOk, OnOk, if◌then◌else◌};
ghost use Rattle.sl_law_meaning.specs.book.Books.{book_of};
ghost use Rattle.sl_law_meaning.specs.returns.Election.{parties_of};
ghost use Rattle.sl_law_meaning.specs.returns.Facts.{is_eligible};
ghost use Rattle.sl_report_parties.specs.Parts.{parts_of};
ghost use Rattle.sl_report_warnings.specs.Warnings.{of_takers, taking_part};

use crate::returns::warn;
use crate::warning::Warning;
use sl_base_quotients::NoMemory;
use sl_report_parties::PartyPart;
use sl_stages::{Book, Returns};
use std::alloc::Global;

/// Whether a party takes part, by what each party has.
pub(crate) fn takes_part(book: &Book, returns: &Returns, parts: &[PartyPart], party: usize) -> bool
    requires parts { parts.now ≡ parts_of book.now.eligible.items returns.now }
    requires party { party < parties_of returns.now }
    ensures { result ≡ is_eligible book.now.eligible.items returns.now party }
{
    party < returns.parties() && parts[party].met.is_some()
}

// Adds a party, if it takes part.
fn push_if(parties: &mut Vec<usize>, takes_part: bool, party: usize) -> Result<(), NoMemory>
    ensures { OnOk result (parties.new.items ≡ parties.old.items ++ (if takes_part then party ∷ [] else [])) }
{
    if takes_part {
        parties.push(party)?;
    }
    Ok(())
}

/// The parties that take part, by what each party has.
pub(crate) fn taking_part(
    alloc: Global,
    book: &Book,
    returns: &Returns,
    parts: &[PartyPart],
) -> Result<Vec<usize>, NoMemory>
    requires { parts.now ≡ parts_of book.now.eligible.items returns.now }
    ensures { IfOk result (λ found. found.items ≡ taking_part (book_of book.now) returns.now) }
{
    let mut found = Vec::new(alloc);
    for party in 0..returns.parties() {
        push_if(&mut found, takes_part(book, returns, parts, party), party)?;
    }
    Ok(found)
}

/// Warns of the only party that takes part.
pub(crate) fn warn_of_takers(
    found: &mut Vec<Warning>,
    returns: &Returns,
    parties: &[usize],
) -> Result<(), NoMemory>
    ensures { OnOk result (found.new.items ≡ found.old.items ++ of_takers returns.now parties.now) }
{
    match parties {
        [party] => {
            let warning = Warning::OnePartyAlone { party: *party };
            warn(found, returns.parties() >= 2, warning)
        }
        _ => Ok(()),
    }
}

//! The parties of an earlier seat table beside those of returns.

ghost use Rattle.std.specs.Prelude.{◌++◌, ◌∷◌, [], ◌≡◌, IfOk, OnOk, filter};
ghost use Rattle.std.specs.Str.{bytes_eq};
ghost use Rattle.sl_report_parties.specs.Earlier.{all_before, is_gone, seats_before};

use sl_base_quotients::NoMemory;
use sl_stages::Returns;
use std::alloc::Global;

/// A party of an earlier seat table: its name, and its seats. One without a name stands for those who sat without a party.
#[derive(Clone, Copy)]
pub struct EarlierParty<'a> {
    pub name: &'a str,
    pub seats: u64,
}

/// The seats of the party of that name in an earlier table, none where it has no such party.
pub fn seats_before(name: &[u8], earlier: &[EarlierParty<'_>]) -> u64
    ensures { result ≡ seats_before name.now earlier.now }
{
    let found = earlier.iter().find(
        |party|
            ensures { result ≡ bytes_eq name.entry.now party.now.now.name.now }
        { name == party.name.as_bytes() },
    );
    match found {
        Some(party) => party.seats,
        None => 0,
    }
}

/// The seats of all parties of an earlier table.
pub fn all_before(earlier: &[EarlierParty<'_>]) -> u64
    ensures { result ≡ all_before earlier.now }
{
    let mut seats = 0u64;
    for party in earlier {
        seats = seats.saturating_add(party.seats);
    }
    seats
}

// Adds a party that had a seat and that the returns do not have.
fn push_gone<'a>(
    found: &mut Vec<EarlierParty<'a>>,
    returns: &Returns,
    party: EarlierParty<'a>,
) -> Result<(), NoMemory>
    ensures { OnOk result (found.new.items ≡ found.old.items ++ filter (is_gone returns.now) (party.entry ∷ [])) }
{
    if !party.name.is_empty()
        && party.seats > 0
        && returns.find_party(party.name.as_bytes()).is_none()
    {
        found.push(party)?;
    }
    Ok(())
}

/// The parties with seats in an earlier table that the returns do not have, in its order.
#[tactic(auto, using(crate::proofs::Steps::filter_next))]
pub fn gone<'a>(
    alloc: Global,
    returns: &Returns,
    earlier: &[EarlierParty<'a>],
) -> Result<Vec<EarlierParty<'a>>, NoMemory>
    ensures { IfOk result (λ found. found.items ≡ filter (is_gone returns.now) earlier.now) }
{
    let mut found = Vec::new(alloc);
    for party in earlier {
        push_gone(&mut found, returns, *party)?;
    }
    Ok(found)
}

//! The lot that the returns give for a stage, as the places in it of the entries of a scope.

ghost use Rattle.std.specs.Prelude.{◌≡◌, ℕ, ◌<◌, ◌==◌, ◌++◌, ◌∷◌, [], All, None, Some, IfOk, OnOk, length, map, is_none, slice_index_or, unwrap_or, if◌then◌else◌};
ghost use Rattle.std.specs.Option.{option_or};
ghost use Rattle.sl_report_results.specs.Places.{IsScope, items_in};
ghost use Rattle.sl_report_results.specs.inner.Drawn.{given_by};
ghost use Rattle.sl_report_results.specs.inner.Tables.{AreFirst, AreNumbers, ArePlaces, number_among};
ghost use Rattle.sl_report_results.specs.inner.Within.{place_in};
ghost use Rattle.sl_law_meaning.specs.meaning.Lots.{given_entry, lot_among};

use crate::places::{place_in, size_in};
use sl_base_quotients::NoMemory;
use sl_report_parties::one_if;
use sl_stages::{Item, Lot, Returns, Scope, Shape};
use std::alloc::Global;

// The entry of a column of that shape that a lot gives.
fn given_entry(votes: Shape, lot: &Lot) -> Option<Item>
    ensures { result ≡ given_entry votes lot.now }
{
    match (votes, lot.land, lot.party) {
        (Shape::Party, None, Some(party)) => Some(Item::Party(party)),
        (Shape::Land, Some(land), None) => Some(Item::Land(land)),
        (Shape::List, Some(land), Some(party)) => Some(Item::List(land, party)),
        _ => None,
    }
}

// Puts a value at a place of a table, if there is none yet, and tells whether it did.
fn put_first<T: Copy>(table: &mut Vec<Option<T>>, place: usize, value: T) -> bool
    requires { place < length table.old.items }
    ensures long { length table.new.items ≡ length table.old.items }
    ensures put { (n : ℕ) → n < length table.old.items → slice_index_or table.new.items n None ≡ option_or (slice_index_or table.old.items n None) (if n == place then Some value else None) }
    ensures told { result ≡ is_none (slice_index_or table.old.items place None) }
{
    let is_free = table[place].is_none();
    if is_free {
        table[place] = Some(value);
    }
    is_free
}

// For each number below an end where it stands first among numbers below it.
fn first_places(
    alloc: Global,
    numbers: &[usize],
    end: usize,
) -> Result<Vec<Option<usize>>, NoMemory>
    requires { All (λ n. n < end) numbers.now }
    ensures { IfOk result (λ places. AreFirst numbers.now end places.items) }
{
    let nothing: Option<usize> = None;
    let mut places = vec![in alloc; nothing; end]?;
    for (place, number) in numbers.iter().enumerate() {
        put_first(&mut places, *number, place);
    }
    Ok(places)
}

// Where the entries of a scope stand among all that it can have.
fn places_of(
    alloc: Global,
    returns: &Returns,
    votes: Shape,
    scope: Scope,
    items: &[Item],
) -> Result<Vec<usize>, NoMemory>
    ensures { IfOk result (λ places. places.items ≡ map (λ i. unwrap_or (place_in returns.now votes scope i) 0) items.now) }
{
    let mut places = Vec::new(alloc);
    for item in items {
        places.push(place_in(returns, votes, scope, *item).unwrap_or(0))?;
    }
    Ok(places)
}

// The numbers of the entries of a scope, by their places.
fn numbers_of(
    alloc: Global,
    returns: &Returns,
    votes: Shape,
    scope: Scope,
    items: &[Item],
) -> Result<Vec<Option<usize>>, NoMemory>
    requires scope { IsScope returns.now scope }
    requires items { items.now ≡ items_in returns.now votes scope }
    ensures { IfOk result (λ numbers. AreNumbers returns.now votes scope items.now numbers.items) }
{
    let places = places_of(alloc, returns, votes, scope, items)?;
    first_places(alloc, places.as_slice(), size_in(returns, votes, scope))
}

// The number of an entry of a scope, by its place.
fn number_among(
    returns: &Returns,
    votes: Shape,
    scope: Scope,
    numbers: &[Option<usize>],
    item: Item,
) -> Option<usize>
    ensures { result ≡ number_among returns.now votes scope numbers.now item }
{
    let place = place_in(returns, votes, scope, item)?;
    *numbers.get(place)?
}

// Adds the entry that a lot gives, if it is a lot of the stage of that name.
fn push_given(given: &mut Vec<Item>, name: &[u8], votes: Shape, lot: &Lot) -> Result<(), NoMemory>
    ensures { OnOk result (given.new.items ≡ given.old.items ++ given_by name.now votes (lot.now ∷ [])) }
{
    if name == lot.stage.as_bytes() {
        if let Some(item) = given_entry(votes, lot) {
            given.push(item)?;
        }
    }
    Ok(())
}

/// The entries of a column of that shape that the lots of the stage of that name give, in their order.
pub(crate) fn given_by(
    alloc: Global,
    returns: &Returns,
    name: &[u8],
    votes: Shape,
) -> Result<Vec<Item>, NoMemory>
    ensures { IfOk result (λ given. given.items ≡ given_by name.now votes returns.now.lots) }
{
    let mut given = Vec::new(alloc);
    for lot in returns.lots() {
        push_given(&mut given, name, votes, lot)?;
    }
    Ok(given)
}

/// The lot that these entries make among those of a scope: for the number of each its place, from 1, where it is drawn first.
pub(crate) fn lot_places(
    alloc: Global,
    returns: &Returns,
    votes: Shape,
    scope: Scope,
    items: &[Item],
    given: &[Item],
) -> Result<Vec<Option<u64>>, NoMemory>
    requires scope { IsScope returns.now scope }
    requires items { items.now ≡ items_in returns.now votes scope }
    ensures { IfOk result (λ places. ArePlaces (lot_among items.now given.now) (length items.now) places.items) }
{
    let numbers = numbers_of(alloc, returns, votes, scope, items)?;
    let nothing: Option<u64> = None;
    let mut places = vec![in alloc; nothing; items.len()]?;
    let mut drawn = 0u64;
    for item in given {
        if let Some(number) = number_among(returns, votes, scope, numbers.as_slice(), *item) {
            drawn += one_if(put_first(&mut places, number, drawn + 1));
        }
    }
    Ok(places)
}

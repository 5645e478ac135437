//! The scopes of a stage and their entries, and the seats that the stage gave to each entry.

ghost use Rattle.std.specs.Prelude.{◌≡◌, ◌<◌, ◌++◌, ◌∷◌, [], IfOk, IfSome, OnOk, slice_index, map, if◌then◌else◌};
ghost use Rattle.sl_report_results.specs.Places.{IsScope, items_in, scope_at, scope_count};
ghost use Rattle.sl_report_results.specs.inner.Tables.{AreWon, seat_place};
ghost use Rattle.sl_report_results.specs.inner.Within.{own_place, place_in, shape_in, size_in};
ghost use Rattle.sl_law_meaning.specs.laws.ColumnLaws.{size_of};
ghost use Rattle.sl_law_meaning.specs.declared.fault.Scope.TheVariants as scope;
ghost use Rattle.sl_law_meaning.specs.declared.fault.Item.TheVariants as item;
ghost use Rattle.sl_law_meaning.specs.meaning.Scopes.{all_lists, entries_of, lists_in_land, lists_of_party, place};
ghost use Rattle.sl_law_meaning.specs.returns.Election.{lands_of, parties_of};
ghost use Rattle.sl_law_meaning.specs.returns.Facts.{lands, parties};

use crate::columns::{number_at, place_of};
use sl_base_quotients::NoMemory;
use sl_stages::{Column, Item, Returns, Scope, SeatStep, Shape};
use std::alloc::Global;

// Adds an element, if it is there.
fn push_if<T: Copy>(all: &mut Vec<T>, one: T, is_there: bool) -> Result<(), NoMemory>
    ensures { OnOk result (all.new.items ≡ all.old.items ++ (if is_there then one ∷ [] else [])) }
{
    if is_there {
        all.push(one)?;
    }
    Ok(())
}

// Where an entry stands in a column of that shape, if it can be one of its.
fn own_place(returns: &Returns, votes: Shape, item: Item) -> Option<usize>
    ensures place { result ≡ own_place returns.now votes item }
    ensures within { IfSome result (λ place. place < size_of returns.now votes) }
{
    let lands = returns.lands();
    let parties = returns.parties();
    match (votes, item) {
        (Shape::Party, Item::Party(party)) if party < parties => Some(party),
        (Shape::Land, Item::Land(land)) if land < lands => Some(land),
        (Shape::List, Item::List(land, party)) if land < lands && party < parties => {
            Some(place_of(returns, land, party))
        }
        _ => None,
    }
}

/// Where an entry stands among all that a scope of a column of that shape can have, if it can be one of them.
pub(crate) fn place_in(returns: &Returns, votes: Shape, scope: Scope, item: Item) -> Option<usize>
    ensures place { result ≡ place_in returns.now votes scope item }
    ensures within { IfSome result (λ place. place < size_in returns.now votes scope) }
{
    match (scope, item) {
        (Scope::All, _) => own_place(returns, votes, item),
        (Scope::Party(own), Item::List(land, party)) => {
            (land < returns.lands() && party < returns.parties() && party == own).then_some(land)
        }
        (Scope::Land(own), Item::List(land, party)) => {
            (land < returns.lands() && party < returns.parties() && land == own).then_some(party)
        }
        (Scope::Party(_) | Scope::Land(_) | Scope::List(_, _), _) => None,
    }
}

/// How many places a scope of a column of that shape has.
pub(crate) fn size_in(returns: &Returns, votes: Shape, scope: Scope) -> usize
    ensures { result ≡ size_in returns.now votes scope }
{
    match (scope, votes) {
        (Scope::All, Shape::One) => 1,
        (Scope::All, Shape::Party) | (Scope::Land(_), _) => returns.parties(),
        (Scope::All, Shape::Land) | (Scope::Party(_), _) => returns.lands(),
        (Scope::All, Shape::List) | (Scope::List(_, _), _) => returns.lands() * returns.parties(),
    }
}

/// The shape of the entries of a scope of a column.
pub(crate) fn shape_in(votes: Shape, scope: Scope) -> Shape
    ensures { result ≡ shape_in votes scope }
{
    match scope {
        Scope::All => votes,
        Scope::Party(_) | Scope::Land(_) | Scope::List(_, _) => Shape::List,
    }
}

// The place in a column of that shape of the entry for which a step won a seat of a stage.
fn seat_place(returns: &Returns, votes: Shape, stage: usize, step: &SeatStep) -> Option<usize>
    ensures place { result ≡ seat_place returns.now votes stage step.now }
    ensures within { IfSome result (λ place. place < size_of returns.now votes) }
{
    if step.stage == stage {
        own_place(returns, votes, step.entry)
    } else {
        None
    }
}

/// The seats that a stage gave to the entries of a column of that shape, by the steps that won them: a column of that shape.
pub(crate) fn seats_won(
    alloc: Global,
    returns: &Returns,
    votes: Shape,
    stage: usize,
    steps: &[SeatStep],
) -> Result<Column, NoMemory>
    ensures { IfOk result (λ won. AreWon returns.now votes stage steps.now won.cells.items) }
{
    let mut cells = vec![in alloc; 0u64; size_in(returns, votes, Scope::All)]?;
    for step in steps {
        if let Some(place) = seat_place(returns, votes, stage, step) {
            cells[place] += 1;
        }
    }
    Ok(Column {
        shape: votes,
        cells,
    })
}

/// The number of an entry in a column of its shape.
pub fn number_of(returns: &Returns, column: &Column, item: Item) -> u64
    ensures { result ≡ slice_index column.now.cells.items (place returns.now item) }
{
    match item {
        Item::Party(party) => number_at(column, party),
        Item::Land(land) => number_at(column, land),
        Item::List(land, party) => {
            let first = land.saturating_mul(returns.parties());
            number_at(column, first.saturating_add(party))
        }
        Item::Win(win) => number_at(column, win),
    }
}

// Adds the lists in a Land.
fn push_lists_in(items: &mut Vec<Item>, returns: &Returns, land: usize) -> Result<(), NoMemory>
    requires { land < lands_of returns.now }
    ensures { OnOk result (items.new.items ≡ items.old.items ++ lists_in_land returns.now land) }
{
    for party in 0..returns.parties() {
        push_if(items, Item::List(land, party), returns.is_list(land, party))?;
    }
    Ok(())
}

// The lists in a Land.
fn lists_in(alloc: Global, returns: &Returns, land: usize) -> Result<Vec<Item>, NoMemory>
    requires { land < lands_of returns.now }
    ensures { IfOk result (λ items. items.items ≡ lists_in_land returns.now land) }
{
    let mut items = Vec::new(alloc);
    push_lists_in(&mut items, returns, land)?;
    Ok(items)
}

// The lists of a party.
fn lists_of(alloc: Global, returns: &Returns, party: usize) -> Result<Vec<Item>, NoMemory>
    requires { party < parties_of returns.now }
    ensures { IfOk result (λ items. items.items ≡ lists_of_party returns.now party) }
{
    let mut items = Vec::new(alloc);
    for land in 0..returns.lands() {
        push_if(
            &mut items,
            Item::List(land, party),
            returns.is_list(land, party),
        )?;
    }
    Ok(items)
}

// All lists.
fn all_lists(alloc: Global, returns: &Returns) -> Result<Vec<Item>, NoMemory>
    ensures { IfOk result (λ items. items.items ≡ all_lists returns.now) }
{
    let mut items = Vec::new(alloc);
    for land in 0..returns.lands() {
        push_lists_in(&mut items, returns, land)?;
    }
    Ok(items)
}

// All parties.
fn all_parties(alloc: Global, returns: &Returns) -> Result<Vec<Item>, NoMemory>
    ensures { IfOk result (λ items. items.items ≡ map (λ party. item.Party party) (parties returns.now)) }
{
    let mut items = Vec::new(alloc);
    for party in 0..returns.parties() {
        items.push(Item::Party(party))?;
    }
    Ok(items)
}

// All Länder.
fn all_lands(alloc: Global, returns: &Returns) -> Result<Vec<Item>, NoMemory>
    ensures { IfOk result (λ items. items.items ≡ map (λ land. item.Land land) (lands returns.now)) }
{
    let mut items = Vec::new(alloc);
    for land in 0..returns.lands() {
        items.push(Item::Land(land))?;
    }
    Ok(items)
}

/// The entries of a column of that shape: parties, Länder or lists, in their order; none of a column of one number.
pub fn entries_of(alloc: Global, returns: &Returns, votes: Shape) -> Result<Vec<Item>, NoMemory>
    ensures { IfOk result (λ items. items.items ≡ entries_of returns.now votes) }
{
    match votes {
        Shape::One => Ok(Vec::new(alloc)),
        Shape::Party => all_parties(alloc, returns),
        Shape::Land => all_lands(alloc, returns),
        Shape::List => all_lists(alloc, returns),
    }
}

/// The entries of a column of that shape which compete in a scope.
pub(crate) fn items_in(
    alloc: Global,
    returns: &Returns,
    votes: Shape,
    scope: Scope,
) -> Result<Vec<Item>, NoMemory>
    requires { IsScope returns.now scope }
    ensures { IfOk result (λ items. items.items ≡ items_in returns.now votes scope) }
{
    match scope {
        Scope::All => entries_of(alloc, returns, votes),
        Scope::Party(party) => lists_of(alloc, returns, party),
        Scope::Land(land) => lists_in(alloc, returns, land),
        Scope::List(_, _) => Ok(Vec::new(alloc)),
    }
}

/// How many scopes amounts of that shape have: one for all, or one for each party or Land.
pub(crate) fn scope_count(returns: &Returns, over: Shape) -> usize
    ensures { result ≡ scope_count returns.now over }
{
    match over {
        Shape::One => 1,
        Shape::Party => returns.parties(),
        Shape::Land => returns.lands(),
        Shape::List => 0,
    }
}

/// The scope of that number.
pub(crate) fn scope_at(over: Shape, number: usize) -> Scope
    ensures { result ≡ scope_at over number }
{
    match over {
        Shape::One | Shape::List => Scope::All,
        Shape::Party => Scope::Party(number),
        Shape::Land => Scope::Land(number),
    }
}

//! The scopes of a stage.

ghost use Rattle.std.specs.Prelude.{◌≡◌, ℕ, ◌++◌, ◌∷◌, [], List, None, Some, IfOk, OnOk, map, filter, length, slice_get, slice_index_or, sum_by, ◌<◌};
ghost use Rattle.std.specs.List.{zip};
ghost use Rattle.sl_base_quotients.specs.declared.method.Method.TheVariants as by;
ghost use Rattle.sl_law_meaning.specs.declared.table.SeatStep.{SeatStep};
ghost use Rattle.sl_report_results.specs.Scopes.{is_shown, quota_entry, shown_entries, with_margins};
ghost use Rattle.sl_report_results.specs.inner.Tables.{AreTold, entry_by};
ghost use Rattle.sl_report_parties.specs.Sums.{capped};

use crate::columns::Distribution;
use crate::fraction::Fraction;
use crate::places::number_of;
use sl_base_quotients::{Method, NoMemory, Ratio};
use sl_law_margins::Decimal;
use sl_stages::{Column, Item, Returns, Scope};
use std::alloc::Global;

/// An entry of a scope: its weight in votes or people, its seats, its minimum, its quotient by the divisor or the quota, the votes that it lacks
/// for one more seat, where a number is known, whether a lot gave it a last seat, where one did or did not, and its place in the lot of the stage.
#[derive(Clone, Copy)]
pub struct Entry {
    pub item: Item,
    pub weight: u64,
    pub seats: u64,
    pub minimum: u64,
    pub quotient: Option<Fraction>,
    pub missing: Option<u64>,
    pub lot: Option<bool>,
    /// The place in the lot, from 1, where the lot names the entry.
    pub place: Option<u64>,
}

/// A scope of a split or a growth: what it distributes by which method, the divisor, that on the border of equal claims or the quota, the entries
/// that have a weight, seats or a minimum, the numbers of those that won the last seat and of those with the next claim, and whether a lot decided
/// between them, where that is known.
#[derive(Drop)]
pub struct Scoped {
    pub stage: usize,
    pub scope: Scope,
    pub method: Method,
    pub grows: bool,
    pub has_minima: bool,
    pub seats: u64,
    pub weight: u64,
    pub divisor: Option<Decimal>,
    pub border: Option<Ratio>,
    pub quota: Option<Fraction>,
    pub entries: Vec<Entry>,
    pub last: Vec<usize>,
    pub next: Vec<usize>,
    pub drawn: Option<bool>,
}

// An entry without a quotient, by the seats of the entries of a column and by its place in a lot.
fn entry_of(
    returns: &Returns,
    what: &Distribution,
    won: &Column,
    place: Option<u64>,
    item: Item,
) -> Entry
    ensures { result ≡ entry_by returns.now what.now won.now.cells.items place item }
{
    let minimum = match &what.minima {
        Some(minima) => number_of(returns, minima, item),
        None => 0,
    };
    Entry {
        item,
        weight: number_of(returns, &what.votes, item),
        seats: number_of(returns, won, item),
        minimum,
        quotient: None,
        missing: None,
        lot: None,
        place,
    }
}

// Adds an entry that has a weight, seats or a minimum.
fn push_shown(entries: &mut Vec<Entry>, entry: Entry) -> Result<(), NoMemory>
    ensures { OnOk result (entries.new.items ≡ entries.old.items ++ filter is_shown (entry ∷ [])) }
{
    if entry.weight > 0 || entry.seats > 0 || entry.minimum > 0 {
        entries.push(entry)?;
    }
    Ok(())
}

// The place in a lot of the entry of that number.
fn place_at(places: &[Option<u64>], number: usize) -> Option<u64>
    ensures { result ≡ slice_index_or places.now number None }
{
    places.get(number).copied().flatten()
}

/// The entries of a scope that have a weight, seats or a minimum, by the seats of the entries of a column and by the places of its own in a lot.
pub(crate) fn shown_entries(
    alloc: Global,
    returns: &Returns,
    what: &Distribution,
    won: &Column,
    places: &[Option<u64>],
    items: &[Item],
) -> Result<Vec<Entry>, NoMemory>
    ensures { (stage : ℕ) → (steps : List SeatStep) → (lot : List ℕ) → AreTold returns.now stage steps lot won.now.cells.items places.now items.now →
        IfOk result (λ entries. entries.items ≡ shown_entries returns.now stage what.now steps lot items.now) }
{
    let mut entries: Vec<Entry> = Vec::new(alloc);
    for (number, item) in items.iter().enumerate() {
        let place = place_at(places, number);
        push_shown(&mut entries, entry_of(returns, what, won, place, *item))?;
    }
    Ok(entries)
}

/// The seats of entries, in all.
pub(crate) fn seats_in(entries: &[Entry]) -> u64
    ensures { result ≡ capped (sum_by (λ x. x.seats) entries.now) }
{
    let mut seats = 0u64;
    for entry in entries {
        seats = seats.saturating_add(entry.seats);
    }
    seats
}

/// The weight of entries, in all.
pub(crate) fn weight_in(entries: &[Entry]) -> u64
    ensures { result ≡ capped (sum_by (λ x. x.weight) entries.now) }
{
    let mut weight = 0u64;
    for entry in entries {
        weight = weight.saturating_add(entry.weight);
    }
    weight
}

// An entry with its quotient by the divisor or by that on the border, with the votes that it lacks, and with what a lot did for it.
fn margin_entry(
    entry: Entry,
    divisor: &Option<Decimal>,
    border: &Option<Ratio>,
    missing: Option<u64>,
    lot: Option<bool>,
) -> Entry
    ensures { result ≡ with_margins divisor.now border.now entry missing lot }
{
    let quotient = match (divisor, border) {
        (Some(divisor), _) => Some(Fraction::quotient(entry.weight, *divisor)),
        (None, Some(claim)) => Some(Fraction::by_claim(entry.weight, *claim)),
        (None, None) => None,
    };
    Entry {
        quotient,
        missing,
        lot,
        ..entry
    }
}

fn entry_at(entries: &[Entry], number: usize) -> Entry
    requires { number < length entries.now }
    ensures { slice_get entries.now number ≡ Some result }
{
    entries[number]
}

// The votes that the entry of that number lacks.
fn lack_at(lacking: &[Option<u64>], number: usize) -> Option<u64>
    requires { number < length lacking.now }
    ensures { slice_get lacking.now number ≡ Some result }
{
    lacking[number]
}

// What a lot did for the entry of that number.
fn mark_at(marks: &[Option<bool>], number: usize) -> Option<bool>
    requires { number < length marks.now }
    ensures { slice_get marks.now number ≡ Some result }
{
    marks[number]
}

/// The entries with their quotients by the divisor or by that on the border, with the votes that they lack, and with what a lot did for them.
pub(crate) fn with_margins(
    alloc: Global,
    entries: &[Entry],
    divisor: &Option<Decimal>,
    border: &Option<Ratio>,
    lacking: &[Option<u64>],
    marks: &[Option<bool>],
) -> Result<Vec<Entry>, NoMemory>
    requires lacking { length lacking.now ≡ length entries.now }
    requires marks { length marks.now ≡ length entries.now }
    ensures { IfOk result (λ all. all.items ≡ map (λ x. with_margins divisor.now border.now x.0 x.1.0 x.1.1) (zip entries.now (zip lacking.now marks.now))) }
{
    let mut all = Vec::new(alloc);
    for number in 0..entries.len() {
        let missing = lack_at(lacking, number);
        let lot = mark_at(marks, number);
        let entry = entry_at(entries, number);
        all.push(margin_entry(entry, divisor, border, missing, lot))?;
    }
    Ok(all)
}

// An entry with its quotient by the quota: its share of the seats.
fn quota_entry(entry: Entry, seats: u64, weight: u64) -> Entry
    ensures { result ≡ quota_entry seats weight entry }
{
    Entry {
        quotient: Some(Fraction {
            num: u128::from(entry.weight) * u128::from(seats),
            den: u128::from(weight),
        }),
        ..entry
    }
}

/// The entries with their quotients by the quota.
pub(crate) fn with_quota(
    alloc: Global,
    entries: &[Entry],
    seats: u64,
    weight: u64,
) -> Result<Vec<Entry>, NoMemory>
    ensures { IfOk result (λ all. all.items ≡ map (quota_entry seats weight) entries.now) }
{
    let mut all = Vec::new(alloc);
    for entry in entries {
        all.push(quota_entry(*entry, seats, weight))?;
    }
    Ok(all)
}

//! The scopes of a stage of a count.

ghost use Rattle.std.specs.Prelude.{◌≡◌, ◌<◌, ◌&&◌, not, IfOk, OnOk, List, get_or, length, is_some, sum_by};
ghost use Rattle.sl_report_parties.specs.Sums.{capped};
ghost use Rattle.sl_law_meaning.specs.meaning.Counts.{HoldsStages};
ghost use Rattle.sl_base_quotients.specs.declared.method.Method.TheVariants as by;
ghost use Rattle.sl_report_results.specs.Lots.{AreLots};
ghost use Rattle.sl_report_results.specs.Places.{IsScope, items_in};
ghost use Rattle.sl_report_results.specs.Scopes.{AreMargins, AreScopes, HasMargins, HasNone, HasQuota, IsAllocated, IsHead, IsScoped, held_of, scope_entries, weights_of};
ghost use Rattle.sl_report_results.specs.StageScopes.{AreStageScopes, name_of};
ghost use Rattle.sl_law_meaning.specs.book.Books.{book_of};
ghost use Rattle.sl_law_meaning.specs.book.Trees.{tree_of};
ghost use Rattle.sl_law_meaning.specs.declared.book.Stage.{Stage};
ghost use Rattle.sl_law_meaning.specs.declared.table.SeatStep.{SeatStep};
ghost use Rattle.sl_report_results.specs.inner.Drawn.{given_by};
ghost use Rattle.sl_report_results.specs.inner.MoreScopes.{Adds};
ghost use Rattle.sl_report_results.specs.inner.Tables.{AreWon};
ghost use Rattle.sl_report_results.specs.inner.Within.{shape_in};

use crate::columns::{Distribution, distribution_of};
use crate::drawing::{given_by, lot_places};
use crate::fraction::Fraction;
use crate::margins::{Margins, margins_of};
use crate::places::{items_in, scope_at, scope_count, seats_won, shape_in};
use crate::scopes::{Entry, Scoped, seats_in, shown_entries, weight_in, with_margins, with_quota};
use sl_base_quotients::{Divisor, Method, NoMemory};
use sl_report_parties::Setting;
use sl_stages::{Column, Counted, Item, Scope, SeatStep, Stage};
use std::alloc::Global;

// A scope without a divisor and a quota.
fn plain(
    alloc: Global,
    stage: usize,
    scope: Scope,
    what: &Distribution,
    entries: &[Entry],
) -> Result<Scoped, NoMemory>
    ensures head { IfOk result (IsHead stage what.now scope entries.now) }
    ensures none { IfOk result (HasNone entries.now) }
{
    Ok(Scoped {
        stage,
        scope,
        method: what.method,
        grows: what.grows,
        has_minima: what.minima.is_some(),
        seats: seats_in(entries),
        weight: weight_in(entries),
        divisor: None,
        border: None,
        quota: None,
        entries: Vec::from_slice(alloc, entries)?,
        last: Vec::new(alloc),
        next: Vec::new(alloc),
        drawn: None,
    })
}

// A scope with the margins of its seats.
fn with_found(
    alloc: Global,
    stage: usize,
    scope: Scope,
    what: &Distribution,
    entries: &[Entry],
    found: Margins,
    method: Divisor,
) -> Result<Scoped, NoMemory>
    requires allocated { IsAllocated method entries.now }
    requires margins { AreMargins method (is_some what.now.minima) (weights_of entries.now) (held_of entries.now) found.divisor found.last.items found.next.items found.missing.items }
    requires lots { AreLots (is_some what.now.minima && not what.now.grows) method (weights_of entries.now) (held_of entries.now) found.last.items found.next.items found.drawn found.border found.marks.items }
    ensures head { IfOk result (IsHead stage what.now scope entries.now) }
    ensures margins { IfOk result (HasMargins method (is_some what.now.minima) entries.now) }
{
    let all = with_margins(
        alloc,
        entries,
        &found.divisor,
        &found.border,
        found.missing.as_slice(),
        found.marks.as_slice(),
    )?;
    Ok(Scoped {
        stage,
        scope,
        method: what.method,
        grows: what.grows,
        has_minima: what.minima.is_some(),
        seats: seats_in(entries),
        weight: weight_in(entries),
        divisor: found.divisor,
        border: found.border,
        quota: None,
        entries: all,
        last: found.last,
        next: found.next,
        drawn: found.drawn,
    })
}

// A scope of a divisor method, with its margins where its seats are an allocation.
fn divided(
    alloc: Global,
    stage: usize,
    scope: Scope,
    what: &Distribution,
    entries: &[Entry],
    method: Divisor,
) -> Result<Scoped, NoMemory>
    requires { what.now.method ≡ by.Divisor method }
    ensures { IfOk result (IsScoped stage what.now scope entries.now) }
{
    let weight = weight_in(entries);
    let has_minima = what.minima.is_some();
    let given = has_minima && !what.grows;
    match margins_of(alloc, method, entries, weight, has_minima, given)? {
        Some(found) => with_found(alloc, stage, scope, what, entries, found, method),
        None => plain(alloc, stage, scope, what, entries),
    }
}

// A scope with its quota.
fn with_shares(
    alloc: Global,
    stage: usize,
    scope: Scope,
    what: &Distribution,
    entries: &[Entry],
    seats: u64,
    weight: u64,
) -> Result<Scoped, NoMemory>
    requires seats { seats ≡ capped (sum_by (λ x. x.seats) entries.now) }
    requires weight { weight ≡ capped (sum_by (λ x. x.weight) entries.now) }
    requires some_seats { 0 < seats }
    requires some_weight { 0 < weight }
    ensures head { IfOk result (IsHead stage what.now scope entries.now) }
    ensures quota { IfOk result (HasQuota entries.now) }
{
    let all = with_quota(alloc, entries, seats, weight)?;
    Ok(Scoped {
        stage,
        scope,
        method: what.method,
        grows: what.grows,
        has_minima: what.minima.is_some(),
        seats,
        weight,
        divisor: None,
        border: None,
        quota: Some(Fraction {
            num: u128::from(weight),
            den: u128::from(seats),
        }),
        entries: all,
        last: Vec::new(alloc),
        next: Vec::new(alloc),
        drawn: None,
    })
}

// A scope of largest remainders, with its quota where it has seats and votes.
fn shared(
    alloc: Global,
    stage: usize,
    scope: Scope,
    what: &Distribution,
    entries: &[Entry],
) -> Result<Scoped, NoMemory>
    requires { what.now.method ≡ by.Hamilton }
    ensures { IfOk result (IsScoped stage what.now scope entries.now) }
{
    let seats = seats_in(entries);
    let weight = weight_in(entries);
    if seats > 0 && weight > 0 {
        with_shares(alloc, stage, scope, what, entries, seats, weight)
    } else {
        plain(alloc, stage, scope, what, entries)
    }
}

// A scope with all that is known of it.
fn scoped(
    alloc: Global,
    stage: usize,
    scope: Scope,
    what: &Distribution,
    entries: &[Entry],
) -> Result<Scoped, NoMemory>
    ensures { IfOk result (IsScoped stage what.now scope entries.now) }
{
    match what.method {
        Method::Divisor(method) => divided(alloc, stage, scope, what, entries, method),
        Method::Hamilton => shared(alloc, stage, scope, what, entries),
    }
}

// Adds a scope of these entries, if there is one.
fn push_some(
    alloc: Global,
    scopes: &mut Vec<Scoped>,
    stage: usize,
    what: &Distribution,
    scope: Scope,
    entries: &[Entry],
) -> Result<(), NoMemory>
    ensures { OnOk result (Adds stage what.now scope entries.now scopes.old.items scopes.new.items) }
{
    let count = entries.len();
    if count == 0 {
        return Ok(());
    }
    let scoped = scoped(alloc, stage, scope, what, entries)?;
    scopes.push(scoped)?;
    Ok(())
}

// The name of the stage of that number.
fn name_of(stages: &[Stage], stage: usize) -> &[u8]
    requires { stage < length stages.now }
    ensures { result.now ≡ name_of stages.now stage }
{
    stages[stage].name.as_bytes()
}

// The entries of a scope that have a weight, seats or a minimum, by the seats that the stage gave to the entries of a column.
fn entries_in(
    alloc: Global,
    setting: &Setting<'_>,
    stage: usize,
    what: &Distribution,
    won: &Column,
    given: &[Item],
    scope: Scope,
) -> Result<Vec<Entry>, NoMemory>
    requires scope { IsScope setting.now.returns.now scope }
    requires given { given.now ≡ given_by (name_of setting.now.book.now.stages.items stage) what.now.votes.shape setting.now.returns.now.lots }
    ensures { (steps : List SeatStep) → AreWon setting.now.returns.now (shape_in what.now.votes.shape scope) stage steps won.now.cells.items →
        IfOk result (λ entries. entries.items ≡ scope_entries setting.now.returns.now (name_of setting.now.book.now.stages.items stage) stage what.now steps (items_in setting.now.returns.now what.now.votes.shape scope)) }
{
    let returns = setting.returns;
    let votes = what.votes.shape;
    let items = items_in(alloc, returns, votes, scope)?;
    let places = lot_places(alloc, returns, votes, scope, items.as_slice(), given)?;
    shown_entries(
        alloc,
        returns,
        what,
        won,
        places.as_slice(),
        items.as_slice(),
    )
}

// Adds a scope, if it has an entry.
fn push_scope(
    alloc: Global,
    scopes: &mut Vec<Scoped>,
    setting: &Setting<'_>,
    stage: usize,
    what: &Distribution,
    won: &Column,
    given: &[Item],
    scope: Scope,
) -> Result<(), NoMemory>
    requires scope { IsScope setting.now.returns.now scope }
    requires given { given.now ≡ given_by (name_of setting.now.book.now.stages.items stage) what.now.votes.shape setting.now.returns.now.lots }
    ensures { (steps : List SeatStep) → AreWon setting.now.returns.now (shape_in what.now.votes.shape scope) stage steps won.now.cells.items →
        OnOk result (Adds stage what.now scope (scope_entries setting.now.returns.now (name_of setting.now.book.now.stages.items stage) stage what.now steps (items_in setting.now.returns.now what.now.votes.shape scope)) scopes.old.items scopes.new.items) }
{
    let entries = entries_in(alloc, setting, stage, what, won, given, scope)?;
    push_some(alloc, scopes, stage, what, scope, entries.as_slice())
}

// The scopes of a stage that have an entry, by what it distributes and by the steps that won its seats.
fn scopes_of(
    alloc: Global,
    setting: &Setting<'_>,
    stage: usize,
    what: &Distribution,
    steps: &[SeatStep],
) -> Result<Vec<Scoped>, NoMemory>
    requires { stage < length setting.now.book.now.stages.items }
    ensures { IfOk result (λ found. AreScopes setting.now.returns.now (name_of setting.now.book.now.stages.items stage) stage what.now steps.now found.items) }
{
    let over = what.seats.shape;
    let votes = shape_in(what.votes.shape, scope_at(over, 0));
    let won = seats_won(alloc, setting.returns, votes, stage, steps)?;
    let name = name_of(setting.book.stages.as_slice(), stage);
    let given = given_by(alloc, setting.returns, name, what.votes.shape)?;
    let mut scopes = Vec::new(alloc);
    for number in 0..scope_count(setting.returns, over) {
        let scope = scope_at(over, number);
        push_scope(
            alloc,
            &mut scopes,
            setting,
            stage,
            what,
            &won,
            given.as_slice(),
            scope,
        )?;
    }
    Ok(scopes)
}

/// The scopes of a stage of a count: those of its split or its growth that have an entry, and none where it has neither.
pub fn stage_scopes(
    alloc: Global,
    setting: &Setting<'_>,
    counted: &Counted,
    stage: usize,
) -> Result<Vec<Scoped>, NoMemory>
    requires counted { HoldsStages (book_of setting.now.book.now) setting.now.returns.now counted.now.columns.items }
    requires stage { stage < length setting.now.book.now.stages.items }
    ensures { IfOk result (λ found. (d : Stage) → AreStageScopes (book_of setting.now.book.now) setting.now.returns.now setting.now.book.now.stages.items counted.now.columns.items
        counted.now.table.steps stage (tree_of (get_or setting.now.book.now.stages.items stage d).expr) found.items) }
{
    let earlier = &counted.columns.as_slice()[..stage];
    let expr = &setting.book.stages[stage].expr;
    match distribution_of(alloc, setting, earlier, expr)? {
        Some(what) => scopes_of(alloc, setting, stage, &what, counted.table.steps()),
        None => Ok(Vec::new(alloc)),
    }
}

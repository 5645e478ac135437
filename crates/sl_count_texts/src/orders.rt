//! The order of a table's seat steps and of its weights.

ghost use Rattle.std.specs.Prelude.{◌≡◌, IfOk, map};
ghost use Rattle.sl_count_texts.specs.Orders.{scope_key, item_key, entry_key, step_key, weight_key, in_order};

use sl_base_quotients::NoMemory;
use sl_stages::{Item, Scope, SeatStep, Table, Weight};
use std::alloc::Global;

// The kind of a scope, and its numbers.
fn scope_key(scope: Scope) -> [u64; 3]
    ensures { result ≡ scope_key scope }
{
    match scope {
        Scope::All => [0, 0, 0],
        Scope::Land(land) => [1, land as u64, 0],
        Scope::Party(party) => [2, party as u64, 0],
        Scope::List(land, party) => [3, land as u64, party as u64],
    }
}

// The kind of an entry, and its numbers.
fn item_key(item: Item) -> [u64; 3]
    ensures { result ≡ item_key item }
{
    match item {
        Item::Party(party) => [0, party as u64, 0],
        Item::Land(land) => [1, land as u64, 0],
        Item::List(land, party) => [2, land as u64, party as u64],
        Item::Win(win) => [3, win as u64, 0],
    }
}

// The numbers of a stage, a scope and an entry. Weights are ordered by them: the first that differs decides.
pub(crate) fn entry_key(stage: usize, scope: Scope, entry: Item) -> [u64; 7]
    ensures { result ≡ entry_key stage scope entry }
{
    let [scope_kind, scope_first, scope_second] = scope_key(scope);
    let [entry_kind, entry_first, entry_second] = item_key(entry);
    [
        stage as u64,
        scope_kind,
        scope_first,
        scope_second,
        entry_kind,
        entry_first,
        entry_second,
    ]
}

// The numbers that steps are ordered by.
fn step_key(step: &SeatStep) -> [u64; 9]
    ensures { result ≡ step_key step.now }
{
    let [scope_kind, scope_first, scope_second] = scope_key(step.scope);
    let [entry_kind, entry_first, entry_second] = item_key(step.entry);
    [
        step.stage as u64,
        scope_kind,
        scope_first,
        scope_second,
        step.step,
        entry_kind,
        entry_first,
        entry_second,
        step.n,
    ]
}

/// The steps of a table in order, those of one key as they stand in the table (docs/output.md, section 1).
pub fn steps_in_order(alloc: Global, table: &Table) -> Result<Vec<&SeatStep>, NoMemory>
    ensures { IfOk result (λ steps. map (λ s. s.now) steps.items ≡ in_order step_key table.now.steps) }
{
    let mut steps: Vec<&SeatStep> = table.steps().iter().collect(alloc)?;
    steps.sort_by_key(
        |step|
            ensures { result ≡ step_key step.now.now }
        { step_key(step) },
    )?;
    Ok(steps)
}

// The weights of a table in order, those of one key as they stand in the table.
pub(crate) fn weights_in_order(alloc: Global, table: &Table) -> Result<Vec<&Weight>, NoMemory>
    ensures { IfOk result (λ weights. map (λ w. w.now) weights.items ≡ in_order weight_key table.now.weights) }
{
    let mut weights: Vec<&Weight> = table.weights().iter().collect(alloc)?;
    weights.sort_by_key(
        |weight|
            ensures { result ≡ weight_key weight.now.now }
        { entry_key(weight.stage, weight.scope, weight.entry) },
    )?;
    Ok(weights)
}

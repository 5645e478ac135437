//! Worked calls in tables, each with what it is to answer: quotients, the order of entries, names, priority tables and margins; and tables in many
//! calls in no order, beside lists of the same entries. They belong to no command.

mod beside;
mod dice;
mod margins;
mod names;
mod quotients;
mod steps;
mod tables;

use crate::assertions::assert_none;
use crate::numbers::margins::ELECTIONS;
use crate::numbers::steps::TABLES;
use sl_prio::Prio;
use std::alloc::{AllocError, Global};

#[test]
fn methods_and_quotients(rt: HostRuntime) {
    assert_none(&rt, quotients::first_wrong_method());
    assert_none(&rt, quotients::first_wrong_quotient());
    assert_none(&rt, quotients::first_wrong_bound());
}

#[test]
fn entries_in_their_order(rt: HostRuntime) {
    assert_none(&rt, quotients::first_wrong_order());
}

#[test]
fn names_and_spellings(rt: HostRuntime) {
    assert_none(&rt, names::first_wrong(rt.alloc()));
    assert_none(&rt, names::first_wrong_spelling());
}

#[test]
fn decimals(rt: HostRuntime) {
    assert_none(&rt, margins::first_wrong_decimal(rt.alloc()));
}

#[test]
fn tables_beside_lists(rt: HostRuntime) {
    assert_none(&rt, beside::first_drawn_wrong(rt.alloc()));
    assert_none(&rt, beside::first_awarded_wrong(rt.alloc()));
}

// The first election with a call that does not answer as wanted.
fn first_wrong_election(alloc: Global) -> Option<usize> {
    for (number, (_, election, calls)) in ELECTIONS.iter().enumerate() {
        if margins::first_wrong(alloc, election, calls).is_some() {
            return Some(number);
        }
    }
    None
}

#[test]
fn margins_of_elections(rt: HostRuntime) {
    assert_none(&rt, first_wrong_election(rt.alloc()));
}

// The first table of steps with one that does not answer as wanted. All steps are made of one table.
fn first_wrong_steps(alloc: Global, long: &[u32]) -> Option<usize> {
    let mut table = Prio::new(alloc);
    for (number, (_, steps)) in TABLES.iter().enumerate() {
        if tables::first_wrong(&mut table, long, steps).is_some() {
            return Some(number);
        }
    }
    None
}

#[test]
fn steps_of_priority_tables(rt: HostRuntime) -> Result<(), AllocError> {
    let long = tables::long_lot(rt.alloc())?;
    assert_none(&rt, first_wrong_steps(rt.alloc(), long.as_slice()));
    Ok(())
}

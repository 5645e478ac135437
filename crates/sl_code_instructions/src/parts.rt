//! The operands of an instruction (docs/code.md, section 2).

ghost use Rattle.std.specs.Prelude.{◌≡◌, [], ◌∷◌};
ghost use Rattle.sl_code_instructions.specs.Numbers.{value_of};

use crate::kinds::{Cursors, Registers, TableState};
use crate::operand::{EndFault, Entries, Input, Ranking, Rounding, ScopeKind};
use sl_base_quotients::Divisor;
use std::marker::Model;

/// An operand of an instruction.
#[derive(Clone, Copy)]
pub enum Operand {
    Register(u8),
    Slot(u8),
    Stage(u8),
    Target(u32),
    Value(u64),
    Scope(ScopeKind),
    Entries(Entries),
    Ranking(Ranking),
    Input(Input),
    Method(Divisor),
    Rounding(Rounding),
    Fault(EndFault),
    Positive(Registers),
    Cursors(Cursors),
    Table(Option<TableState>),
}

impl Operand {
    /// The number by which it is spelled and listed.
    pub fn value(self) -> u64
        ensures { result ≡ value_of self }
    {
        match self {
            Operand::Register(number) | Operand::Slot(number) | Operand::Stage(number) => {
                u64::from(number)
            }
            Operand::Target(target) => u64::from(target),
            Operand::Value(value) => value,
            Operand::Scope(scope) => u64::from(scope.number()),
            Operand::Entries(entries) => u64::from(entries.number()),
            Operand::Ranking(ranking) => u64::from(ranking.number()),
            Operand::Input(input) => u64::from(input.number()),
            Operand::Method(method) => u64::from(method.number()),
            Operand::Rounding(rounding) => u64::from(rounding.number()),
            Operand::Fault(fault) => u64::from(fault.number()),
            Operand::Positive(registers) => u64::from(registers.mask),
            Operand::Cursors(cursors) => u64::from(cursors.number()),
            Operand::Table(table) => u64::from(TableState::number(table)),
        }
    }
}

/// The operands of an instruction, in order.
#[derive(Drop)]
pub struct Operands {
    list: [Operand; 4],
    len: usize,
}

impl Model for Operands {
    ghost use Rattle.std.specs.Prelude.{◌≤◌, List, take};
    ghost use Rattle.sl_code_instructions.specs.declared.parts.Operand.{Operand};

    ghost Value = { List Operand };

    ghost view = { λ o. take o.len o.list };

    ghost invariant = { λ o. o.len ≤ 4 };
}

// what stands after the last operand
const FILLER: Operand = Operand::Register(0);

impl Operands {
    /// As a slice.
    pub fn as_slice(&self) -> &[Operand]
        ensures { result.now ≡ self.now }
    {
        &self.list[..self.len]
    }
}

pub(crate) fn none() -> Operands
    ensures { result ≡ [] }
{
    Operands {
        list: [FILLER; 4],
        len: 0,
    }
}

pub(crate) fn one(a: Operand) -> Operands
    ensures { result ≡ a ∷ [] }
{
    Operands {
        list: [a, FILLER, FILLER, FILLER],
        len: 1,
    }
}

pub(crate) fn two(a: Operand, b: Operand) -> Operands
    ensures { result ≡ a ∷ b ∷ [] }
{
    Operands {
        list: [a, b, FILLER, FILLER],
        len: 2,
    }
}

pub(crate) fn three(a: Operand, b: Operand, c: Operand) -> Operands
    ensures { result ≡ a ∷ b ∷ c ∷ [] }
{
    Operands {
        list: [a, b, c, FILLER],
        len: 3,
    }
}

pub(crate) fn four(a: Operand, b: Operand, c: Operand, d: Operand) -> Operands
    ensures { result ≡ a ∷ b ∷ c ∷ d ∷ [] }
{
    Operands {
        list: [a, b, c, d],
        len: 4,
    }
}

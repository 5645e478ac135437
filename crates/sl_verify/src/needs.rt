//! What an instruction needs.

ghost use Rattle.std.specs.Prelude.{◌≡◌, ◌&&◌, IsTrue, true};
ghost use Rattle.std.specs.List.{list_all};
ghost use Rattle.std.specs.Option.{option_map_or};
ghost use Rattle.sl_code_semantics.specs.Kinds.{contains, is_register};
ghost use Rattle.sl_code_semantics.specs.WellKinded.{context_of};
ghost use Rattle.sl_base_terms.specs.Shapes.{same_shape};
ghost use Rattle.sl_code_instructions.specs.declared.instr.Instr.{Instr};
ghost use Rattle.sl_code_instructions.specs.Rows.{operands_of, register_in, slot_in, stage_in};
ghost use Rattle.sl_code_semantics.specs.Needs.{has_registers, has_slot, has_column, has_stage, input_shape, needed_shape, suits, has_columns, needed_positive, shape_cursors, scope_cursors, entry_cursors, slot_cursors, table_cursors, needed_cursors, has_kinds, takes_entry, takes_share, points_at, has_table};

use crate::known::{contains, covers, is_register, same_entries, same_ranking};
use sl_base_terms::Shape;
use sl_code_instructions::{
    Code, Cursors, Entries, Input, Instr, Kinds, Operand, Operands, Ranking, ScopeKind, TableState,
};
use sl_code_semantics::{
    LAND_CURSOR, LAST_CLAUSE, LIST_CURSORS, NO_CURSORS, PARTY_CURSOR, WIN_CURSOR, entry_cursors,
    table_cursors,
};

/// Whether the machine has the register, if the operand is one.
fn has_register(operand: &Operand) -> bool
    ensures { result ≡ option_map_or is_register (register_in operand.now) true }
{
    match *operand {
        Operand::Register(register) => is_register(register),
        _ => true,
    }
}

fn each_register(operands: &[Operand]) -> bool
    ensures { result ≡ list_all (λ operand. option_map_or is_register (register_in operand) true) operands.now }
{
    operands.iter().all(has_register)
}

/// Whether the machine has the registers that an instruction with these operands names.
pub fn has_registers(operands: &Operands) -> bool
    ensures { (instr : Instr) → operands.now ≡ operands_of instr → result ≡ has_registers instr }
{
    each_register(operands.as_slice())
}

fn same_shape(a: Shape, b: Shape) -> bool
    ensures { result ≡ same_shape a b }
{
    a == b
}

/// Whether the code has the slot.
pub fn has_slot(code: &Code, slot: u8) -> bool
    ensures { result ≡ has_slot (context_of code.now) slot }
{
    code.slots().get(slot as usize).is_some()
}

/// Whether the slot's column has that shape.
fn has_column(code: &Code, slot: u8, shape: Shape) -> bool
    ensures { result ≡ has_column (context_of code.now) slot shape }
{
    match code.slots().get(slot as usize) {
        None => false,
        Some(has) => same_shape(shape, *has),
    }
}

fn has_stage(code: &Code, stage: u8) -> bool
    ensures { result ≡ has_stage (context_of code.now) stage }
{
    stage == LAST_CLAUSE || (stage as usize) < code.stages().len()
}

fn input_shape(input: Input) -> Shape
    ensures { result ≡ input_shape input }
{
    match input {
        Input::Valid | Input::Counted | Input::Names => Shape::List,
        Input::Minority => Shape::Party,
        Input::Population => Shape::Land,
    }
}

/// The shape that the columns must have, if any does not do.
fn needed_shape(instr: Instr) -> Option<Shape>
    ensures { result ≡ needed_shape instr }
{
    match instr {
        Instr::Input(_, input) => Some(input_shape(input)),
        Instr::Halt(..) | Instr::Haltv(..) => Some(Shape::List),
        _ => None,
    }
}

/// Whether the slot is there, with that shape, if one is needed.
fn suits(code: &Code, shape: Option<Shape>, slot: u8) -> bool
    ensures { result ≡ suits (context_of code.now) shape slot }
{
    match shape {
        None => has_slot(code, slot),
        Some(shape) => has_column(code, slot, shape),
    }
}

/// Whether the operand is no slot and no stage, or one that does.
fn has_operand(code: &Code, shape: Option<Shape>, operand: Operand) -> bool
    ensures { result ≡ (option_map_or (suits (context_of code.now) shape) (slot_in operand) true && option_map_or (has_stage (context_of code.now)) (stage_in operand) true) }
{
    match operand {
        Operand::Slot(slot) => suits(code, shape, slot),
        Operand::Stage(stage) => has_stage(code, stage),
        _ => true,
    }
}

fn each_operand(code: &Code, shape: Option<Shape>, operands: &[Operand]) -> bool
    ensures { result ≡ list_all (λ operand. option_map_or (suits (context_of code.now) shape) (slot_in operand) true && option_map_or (has_stage (context_of code.now)) (stage_in operand) true) operands.now }
{
    operands
        .iter()
        .all(|operand| has_operand(code, shape, *operand))
}

/// Whether the code has the columns and the stage that the instruction, which has these operands, names.
pub fn has_columns(code: &Code, instr: Instr, operands: &Operands) -> bool
    requires { operands.now ≡ operands_of instr }
    ensures { result ≡ has_columns (context_of code.now) instr }
{
    each_operand(code, needed_shape(instr), operands.as_slice())
}

/// The register that must be positive.
fn needed_positive(instr: Instr) -> Option<u8>
    ensures { result ≡ needed_positive instr }
{
    match instr {
        Instr::Div(_, by) | Instr::Rem(_, by) => Some(by),
        Instr::Prio(_, weight, _) | Instr::Weigh(_, _, _, weight) => Some(weight),
        _ => None,
    }
}

fn shape_cursors(shape: Shape) -> Cursors
    ensures { result ≡ shape_cursors shape }
{
    match shape {
        Shape::One => NO_CURSORS,
        Shape::Party => PARTY_CURSOR,
        Shape::Land => LAND_CURSOR,
        Shape::List => LIST_CURSORS,
    }
}

fn scope_cursors(scope: ScopeKind) -> Cursors
    ensures { result ≡ scope_cursors scope }
{
    match scope {
        ScopeKind::All => NO_CURSORS,
        ScopeKind::Party => PARTY_CURSOR,
        ScopeKind::Land => LAND_CURSOR,
        ScopeKind::List => LIST_CURSORS,
    }
}

/// The cursors that say a cell of the slot's column.
fn slot_cursors(code: &Code, slot: u8) -> Cursors
    ensures { result ≡ slot_cursors (context_of code.now) slot }
{
    match code.slots().get(slot as usize) {
        None => NO_CURSORS,
        Some(shape) => shape_cursors(*shape),
    }
}

/// The cursors that must be set, where that is known of the table.
fn needed_cursors(code: &Code, table: Option<TableState>, instr: Instr) -> Cursors
    ensures { result ≡ needed_cursors (context_of code.now) table instr }
{
    match instr {
        Instr::Jnl(..) => LIST_CURSORS,
        Instr::Get(_, slot) | Instr::Store(slot, _) => slot_cursors(code, slot),
        Instr::Nparty(..) => PARTY_CURSOR,
        Instr::Nland(..) => LAND_CURSOR,
        Instr::Wparty(..)
        | Instr::Wland
        | Instr::Nwin(..)
        | Instr::Share
        | Instr::Seat
        | Instr::Single => WIN_CURSOR,
        Instr::Prio(..) | Instr::Rest(..) | Instr::Lead => table_cursors(table),
        Instr::Emit(_, scope, _, _)
        | Instr::Given(_, scope, _)
        | Instr::Fault(_, scope, _)
        | Instr::Tie(_, scope, _)
        | Instr::Weigh(_, scope, _, _) => scope_cursors(scope),
        _ => NO_CURSORS,
    }
}

fn is_needed_positive(kinds: Kinds, instr: Instr) -> bool
    requires { IsTrue (has_registers instr) }
    ensures { result ≡ option_map_or (contains kinds.positive) (needed_positive instr) true }
{
    match needed_positive(instr) {
        None => true,
        Some(register) => contains(kinds.positive, register),
    }
}

/// Whether the register that must be positive is, and the cursors that must be set are.
pub fn has_kinds(code: &Code, kinds: Kinds, instr: Instr) -> bool
    requires { IsTrue (has_registers instr) }
    ensures { result ≡ has_kinds (context_of code.now) kinds instr }
{
    is_needed_positive(kinds, instr)
        && covers(kinds.cursors, needed_cursors(code, kinds.table, instr))
}

/// Whether it is a table of parties, Länder or lists, ranked so.
fn takes_entry(ranking: Ranking, table: TableState) -> bool
    ensures { result ≡ takes_entry ranking table }
{
    !same_entries(table.entries, Entries::Win) && same_ranking(table.ranking, ranking)
}

/// Whether it is a table of winners, ranked by quotients.
fn takes_share(table: TableState) -> bool
    ensures { result ≡ takes_share table }
{
    same_entries(table.entries, Entries::Win) && same_ranking(table.ranking, Ranking::Quotients)
}

/// Whether it is a table of parties, Länder or lists, to whose entries the cursors point.
fn points_at(cursors: Cursors, table: TableState) -> bool
    ensures { result ≡ points_at cursors table }
{
    !same_entries(table.entries, Entries::Win) && covers(cursors, entry_cursors(table.entries))
}

/// Whether the table is as the instruction needs it.
pub fn has_table(kinds: Kinds, instr: Instr) -> bool
    ensures { result ≡ has_table kinds instr }
{
    match instr {
        Instr::Prio(..) => kinds
            .table
            .is_some_and(|table| takes_entry(Ranking::Quotients, table)),
        Instr::Rest(..) | Instr::Lead => kinds
            .table
            .is_some_and(|table| takes_entry(Ranking::Remainders, table)),
        Instr::Share => kinds.table.is_some_and(takes_share),
        Instr::Peers(..) => kinds.table.is_some(),
        Instr::Take | Instr::Lot(..) | Instr::Takelot(..) | Instr::Tie(..) => {
            kinds.table.is_some_and(|table| table.ready)
        }
        Instr::Emit(..) | Instr::Given(..) | Instr::Weigh(..) => kinds
            .table
            .is_some_and(|table| points_at(kinds.cursors, table)),
        _ => true,
    }
}

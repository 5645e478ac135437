//! What the machine holds during a run.

ghost use Rattle.std.specs.Prelude.{◌≡◌, ◌≤◌, ◌++◌, ◌∷◌, [], map, replicate, IfOk, OnOk};
ghost use Rattle.sl_law_meaning.specs.returns.Election.{IsElection};
ghost use Rattle.sl_code_semantics.specs.State.{start};
ghost use Rattle.sl_code_semantics.specs.Places.{cells_of};
ghost use Rattle.sl_code_steps.specs.inner.Stores.{state_of, sizes_of, sizes_for};

use crate::cell_cursors::CellCursors;
use crate::column::{Column, MOST_CELLS};
use crate::cursor::Cursor;
use crate::lots::Lots;
use crate::priority::PriorityTable;
use sl_base_quotients::{NoMemory, Ratio};
use sl_code_instructions::Code;
use sl_code_semantics::REGISTERS;
use sl_stages::{Mark, Placed, Returns, SeatStep, Shape, Weight};
use std::alloc::Global;

/// The cursors: those by which a cell of a column is found, and that of the winners.
#[derive(Drop)]
pub(crate) struct Cursors {
    pub cells: CellCursors,
    pub win: Cursor,
}

/// A state of the machine, but for the place in the code.
#[derive(Drop)]
pub struct Store {
    pub(crate) alloc: Global,
    pub(crate) registers: [u64; REGISTERS as usize],
    // a column for each slot
    pub(crate) columns: Vec<Column>,
    pub(crate) cursors: Cursors,
    pub(crate) table: PriorityTable,
    // the mark of the entry taken last
    pub(crate) mark: Mark,
    pub(crate) steps: Vec<SeatStep>,
    pub(crate) weights: Vec<Weight>,
    // by winner
    pub(crate) placed: Vec<Placed>,
}

// Adds an item.
pub(crate) fn append<T: Drop>(items: &mut Vec<T>, item: T) -> Result<(), NoMemory>
    ensures { OnOk result (items.new.items ≡ items.old.items ++ item ∷ []) }
{
    items.push(item)?;
    Ok(())
}

// The number of cells of a column.
pub(crate) fn cells(returns: &Returns, shape: Shape) -> usize
    ensures value { result ≡ cells_of returns.now shape }
    ensures few { result ≤ MOST_CELLS }
{
    match shape {
        Shape::One => 1,
        Shape::Party => returns.parties(),
        Shape::Land => returns.lands(),
        Shape::List => returns.lands() * returns.parties(),
    }
}

// A column of zeros for each slot.
fn blank_columns(alloc: Global, slots: &[Shape], returns: &Returns) -> Result<Vec<Column>, NoMemory>
    ensures { IfOk result (λ columns. columns.items ≡ map (λ shape. replicate (cells_of returns.now shape) 0) slots.now) }
{
    let mut columns = Vec::new(alloc);
    for shape in slots {
        append(&mut columns, Column::zeros(alloc, cells(returns, *shape)))?;
    }
    Ok(columns)
}

// Nobody is seated.
fn unseated(alloc: Global, wins: usize) -> Result<Vec<Placed>, NoMemory>
    ensures { IfOk result (λ placed. placed.items ≡ replicate wins Placed.Unseated) }
{
    let mut placed = Vec::new(alloc);
    placed.resize(wins, Placed::Unseated)?;
    Ok(placed)
}

impl Store {
    /// The state at the start of a run.
    pub fn start(alloc: Global, code: &Code, returns: &Returns) -> Result<Store, NoMemory>
        ensures state { IfOk result (λ store. state_of store ≡ start) }
        ensures election { IfOk result (λ store. IsElection returns.now) }
        ensures fits { IfOk result (λ store. sizes_of store ≡ sizes_for code.now returns.now) }
    {
        let columns = blank_columns(alloc, code.slots(), returns)?;
        let placed = unseated(alloc, returns.wins())?;
        let lots = Lots::of(alloc, code, returns)?;
        Ok(Store {
            alloc,
            registers: [0; REGISTERS as usize],
            columns,
            cursors: Cursors {
                cells: CellCursors::unset(returns.parties()),
                win: Cursor::unset(),
            },
            table: PriorityTable::off(alloc, lots),
            mark: Mark::Quotient(Ratio::new(1, 1)),
            steps: Vec::new(alloc),
            weights: Vec::new(alloc),
            placed,
        })
    }
}

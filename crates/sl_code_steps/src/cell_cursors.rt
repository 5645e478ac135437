//! The cursors of the party and the Land, with the cells of columns at them.

ghost use Rattle.std.specs.Prelude.{◌≡◌, ◌<◌, ◌≤◌, ◌*◌, ◌/◌, ◌%◌, Some, None, IsSome};
ghost use Rattle.sl_code_steps.specs.inner.Positions.{cell_there};

use sl_base_quotients::{MAX_LANDS, MAX_PARTIES};
use sl_stages::{SHAPES, Shape};
use std::marker::Model;

const SHAPE_COUNT: usize = SHAPES.len();

const PARTY: usize = Shape::Party as usize;

const LAND: usize = Shape::Land as usize;

const LIST: usize = Shape::List as usize;

/// The cursors of the party and the Land, each at a number if it is set. They keep the cell at them for each shape of a column: whoever reads a cell finds it by one look, without a test or a product.
#[derive(Drop)]
pub(crate) struct CellCursors {
    is_party_set: bool,
    is_land_set: bool,
    // by the number of the shape; an unset cursor counts as where it stood last
    cells: [usize; SHAPE_COUNT],
    // the cell of the Land's first list: a move of the party adds to it
    row: usize,
    // how many lists a Land has cells for
    parties: usize,
}

impl Model for CellCursors {
    ghost use Rattle.sl_code_steps.specs.inner.Positions.{Position};

    ghost Value = { Position };

    ghost use Rattle.sl_code_steps.specs.inner.CellCursors.{position_in, FitsCells};

    ghost view = { position_in };

    ghost invariant = { FitsCells };
}

impl CellCursors {
    /// Cursors that are not set, among so many parties.
    pub(crate) fn unset(parties: usize) -> CellCursors
        requires { parties ≤ MAX_PARTIES }
        ensures { result ≡ record { party = None; land = None; parties = parties } }
    {
        CellCursors {
            is_party_set: false,
            is_land_set: false,
            cells: [0; SHAPE_COUNT],
            row: 0,
            parties,
        }
    }

    /// Moves the party's cursor to a number.
    pub(crate) fn set_party(&mut self, party: usize)
        requires { party < MAX_PARTIES }
        ensures { self.new ≡ record self.old { party = Some party } }
    {
        self.is_party_set = true;
        self.move_party_on(party);
    }

    /// Moves the party's cursor on to a number.
    pub(crate) fn move_party_on(&mut self, party: usize)
        requires set { IsSome self.old.party }
        requires few { party < MAX_PARTIES }
        ensures { self.new ≡ record self.old { party = Some party } }
    {
        self.cells[PARTY] = party;
        self.cells[LIST] = self.row + party;
    }

    /// Leaves the party's cursor unset.
    pub(crate) fn clear_party(&mut self)
        ensures { self.new ≡ record self.old { party = None } }
    {
        self.is_party_set = false;
    }

    /// Moves the Land's cursor to a number.
    pub(crate) fn set_land(&mut self, land: usize)
        requires { land < MAX_LANDS }
        ensures { self.new ≡ record self.old { land = Some land } }
    {
        self.is_land_set = true;
        self.move_land_on(land);
    }

    /// Moves the Land's cursor on to a number.
    pub(crate) fn move_land_on(&mut self, land: usize)
        requires set { IsSome self.old.land }
        requires few { land < MAX_LANDS }
        ensures { self.new ≡ record self.old { land = Some land } }
    {
        self.row = land * self.parties;
        self.cells[LAND] = land;
        self.cells[LIST] = self.row + self.cells[PARTY];
    }

    /// Moves both cursors to the list at a place of a column of lists. Its cell is that place, so no read of it waits for the division.
    pub(crate) fn set_list(&mut self, place: usize)
        requires { place < MAX_LANDS * self.old.parties }
        ensures { self.new ≡ record self.old { land = Some (place / self.old.parties); party = Some (place % self.old.parties) } }
    {
        let land = place / self.parties;
        let party = place % self.parties;
        self.is_land_set = true;
        self.is_party_set = true;
        self.row = land * self.parties;
        self.cells[LAND] = land;
        self.cells[PARTY] = party;
        self.cells[LIST] = place;
    }

    /// Leaves the Land's cursor unset.
    pub(crate) fn clear_land(&mut self)
        ensures { self.new ≡ record self.old { land = None } }
    {
        self.is_land_set = false;
    }

    /// The number at which the party's cursor stands, if it is set.
    pub(crate) fn party(&self) -> Option<usize>
        ensures { result ≡ self.now.party }
    {
        self.is_party_set.then_some(self.cells[PARTY])
    }

    /// The number at which the Land's cursor stands, if it is set.
    pub(crate) fn land(&self) -> Option<usize>
        ensures { result ≡ self.now.land }
    {
        self.is_land_set.then_some(self.cells[LAND])
    }

    /// The cell at the cursors in a column of a shape, of which those of that shape are set.
    pub(crate) fn cell(&self, shape: Shape) -> usize
        requires { IsSome (cell_there shape self.now) }
        ensures { cell_there shape self.now ≡ Some result }
    {
        self.cells[shape as usize]
    }
}

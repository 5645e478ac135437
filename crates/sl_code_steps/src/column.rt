//! A column of numbers.

ghost use Rattle.std.specs.Prelude.{◌≡◌, ◌<◌, ◌≤◌, [], OnOk, OnErr, length, map, replicate, set, slice_index};
ghost use Rattle.std.specs.List.{range_with_len};
ghost use Rattle.sl_code_semantics.specs.Needs.{input_shape};
ghost use Rattle.sl_code_semantics.specs.Places.{cells_of};
ghost use Rattle.sl_code_semantics.specs.Effects.{input_of};

use crate::columns::read_input;
use sl_base_quotients::{MAX_LANDS, MAX_PARTIES, NoMemory};
use sl_code_instructions::Input;
use sl_stages::Returns;
use std::alloc::Global;
use std::marker::Model;

/// The most numbers of a column: one for each list of the greatest election.
pub(crate) const MOST_CELLS: usize = MAX_LANDS * MAX_PARTIES;

// What is seen of columns without cells.
const ZEROS: [u64; MOST_CELLS] = [0; MOST_CELLS];

/// A column of so many numbers. While all are 0 it can do without cells, and takes no memory then: few of a code's columns are ever written.
#[derive(Drop)]
pub(crate) struct Column {
    length: usize,
    // none, or one for each number
    cells: Vec<u64>,
}

impl Model for Column {
    ghost use Rattle.std.specs.Prelude.{ℕ, List};
    ghost use Rattle.sl_code_steps.specs.inner.Columns.{numbers_in, FitsColumn};

    ghost Value = { List ℕ };

    ghost view = { numbers_in };

    ghost invariant = { FitsColumn };
}

// Writes so many zeros into cells that are none. It is seldom called, and stands apart so that a step which finds its cells is short.
#[cold]
#[inline(never)]
fn write_zeros(cells: &mut Vec<u64>, length: usize) -> Result<(), NoMemory>
    requires { cells.old.items ≡ [] }
    ensures zeros { OnOk result (cells.new.items ≡ replicate length 0) }
    ensures none { OnErr result (cells.new.items ≡ []) }
{
    cells.resize(length, 0)?;
    Ok(())
}

impl Column {
    /// So many zeros.
    pub(crate) fn zeros(alloc: Global, length: usize) -> Column
        requires { length ≤ MOST_CELLS }
        ensures { result ≡ replicate length 0 }
    {
        Column {
            length,
            cells: Vec::new(alloc),
        }
    }

    /// How many numbers there are.
    pub(crate) fn len(&self) -> usize
        ensures value { result ≡ length self.now }
        ensures few { result ≤ MOST_CELLS }
    {
        self.length
    }

    /// The number at a place.
    pub(crate) fn number(&self, place: usize) -> u64
        requires { place < length self.now }
        ensures { result ≡ slice_index self.now place }
    {
        match self.cells.get(place) {
            Some(cell) => *cell,
            None => 0,
        }
    }

    /// Puts a number at a place.
    pub(crate) fn put(&mut self, place: usize, number: u64) -> Result<(), NoMemory>
        requires { place < length self.old }
        ensures put { OnOk result (self.new ≡ set self.old place number) }
        ensures kept { length self.new ≡ length self.old }
    {
        if self.cells.is_empty() {
            write_zeros(&mut self.cells, self.length)?;
        }
        self.cells[place] = number;
        Ok(())
    }

    /// Makes all numbers 0.
    pub(crate) fn clear(&mut self)
        ensures { self.new ≡ replicate (length self.old) 0 }
    {
        self.cells.clear();
    }

    /// Makes it a column of the returns.
    pub(crate) fn read(&mut self, returns: &Returns, input: Input) -> Result<(), NoMemory>
        requires { length self.old ≡ cells_of returns.now (input_shape input) }
        ensures read { OnOk result (self.new ≡ map (input_of returns.now input) (range_with_len 0 (cells_of returns.now (input_shape input)))) }
        ensures kept { length self.new ≡ length self.old }
    {
        self.cells.resize(self.length, 0)?;
        read_input(self.cells.as_mut_slice(), returns, input);
        Ok(())
    }

    /// The numbers.
    pub(crate) fn as_slice(&self) -> &[u64]
        ensures { result.now ≡ self.now }
    {
        if self.cells.is_empty() {
            &ZEROS[..self.length]
        } else {
            self.cells.as_slice()
        }
    }
}

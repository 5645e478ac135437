//! Lists of names, each of which has the number of its place.

ghost use Rattle.std.specs.Prelude.{◌≡◌, ◌≢◌, ℕ, ◌<◌, ◌≤◌, ◌↔◌, IsTrue, [], ◌∷◌, ◌++◌, length, slice_get, Some, None, OnOk, IfOk, OnErr, IfErr, IfSome};
ghost use Rattle.sl_base_quotients.specs.Names.{NameList, IsNameList, Refuses, is_name, name_fault, number_of};

use indexmap::IndexSet;
use sl_base_quotients::{NameFault, spelling_fault};
use std::alloc::{AllocError, Global};
use std::marker::Model;

// So many names have room from the first on, if there may be so many: an index that grows is made again each time.
const FIRST_ROOM: usize = 512;

/// A list of names, each once, at most as many as its limit. A name is found by its bytes, and its number is its place.
#[derive(Drop)]
pub struct Names {
    limit: usize,
    names: IndexSet<Vec<u8>>,
    alloc: Global,
}

impl Model for Names {
    ghost use Rattle.std.specs.Prelude.{map};
    ghost use Rattle.sl_base_quotients.specs.Names.{NameList, IsNameList};

    ghost Value = { NameList };

    ghost view = { λ s. record { limit = s.limit; names = map (λ name. name.items) s.names.keys } };

    ghost invariant = { λ s. IsNameList (record { limit = s.limit; names = map (λ name. name.items) s.names.keys }) };
}

impl Names {
    /// No names, with room for at most `limit` of them. Takes no memory.
    pub fn new(alloc: Global, limit: usize) -> Names
        ensures { result ≡ record { limit = limit; names = [] } }
    {
        Names {
            limit,
            names: IndexSet::new(alloc),
            alloc,
        }
    }

    /// Adds a name, and answers its number.
    ///
    /// # Errors
    ///
    /// The first of the faults, in their order, that applies. The list is then unchanged.
    pub fn add(&mut self, name: &[u8]) -> Result<usize, NameFault>
        ensures accepted { OnOk result (name_fault self.old name.now ≡ None) }
        ensures number { IfOk result (λ number. number ≡ length self.old.names) }
        ensures added { OnOk result (self.new ≡ record self.old { names = self.old.names ++ name.now ∷ [] }) }
        ensures refused { IfErr result (Refuses self.old name.now) }
        ensures unchanged { OnErr result (self.new ≡ self.old) }
    {
        if let Some(fault) = self.fault(name) {
            return Err(fault);
        }
        let number = self.names.len();
        if self.make_room().is_err() {
            return Err(NameFault::NoMemory);
        }
        let Ok(kept) = Vec::from_slice(self.alloc, name) else {
            return Err(NameFault::NoMemory);
        };
        let Ok(_) = self.names.insert(kept) else {
            return Err(NameFault::NoMemory);
        };
        Ok(number)
    }

    // Makes room for the first names.
    fn make_room(&mut self) -> Result<(), AllocError>
        ensures { self.new ≡ self.old }
    {
        if self.names.is_empty() {
            self.names.reserve(self.limit.min(FIRST_ROOM))?;
        }
        Ok(())
    }

    // Why the name can't be added.
    fn fault(&self, name: &[u8]) -> Option<NameFault>
        ensures { result ≡ name_fault self.now name.now }
    {
        if let Some(fault) = spelling_fault(name) {
            Some(fault)
        } else if self.names.contains(name) {
            Some(NameFault::Twice)
        } else if self.names.len() >= self.limit {
            Some(NameFault::Full)
        } else {
            None
        }
    }

    /// The number of a name, or `None` where the list lacks it.
    pub fn find(&self, name: &[u8]) -> Option<usize>
        ensures number { result ≡ number_of self.now name.now }
        ensures within { IfSome result (λ number. number < length self.now.names) }
        ensures stands { IfSome result (λ number. slice_get self.now.names number ≡ Some name.now) }
        ensures lacks { result ≡ None → (number : ℕ) → slice_get self.now.names number ≢ Some name.now }
    {
        self.names.get_index_of(name)
    }

    /// The name with a number.
    pub fn name(&self, number: usize) -> &[u8]
        requires { number < length self.now.names }
        ensures name { slice_get self.now.names number ≡ Some result.now }
        ensures spelled { IsTrue (is_name result.now) }
    {
        &self.names[number]
    }

    /// The number of names.
    pub fn len(&self) -> usize
        ensures value { result ≡ length self.now.names }
        ensures within { result ≤ self.now.limit }
        ensures kept { IsNameList self.now }
    {
        self.names.len()
    }

    /// Whether there are no names.
    pub fn is_empty(&self) -> bool
        ensures { IsTrue result ↔ (self.now.names ≡ []) }
    {
        self.names.is_empty()
    }
}

//! The names and the lots of the returns under way, found by an index.

ghost use Rattle.std.specs.Prelude.{◌≡◌, ◌++◌, ◌∷◌, [], None, OnOk};
ghost use Rattle.sl_base_quotients.specs.Names.{name_fault};
ghost use Rattle.sl_law_meaning.specs.returns.Election.{no_election};
ghost use Rattle.sl_returns.specs.inner.Indexed.{index_of};

use crate::told::ToldLots;
use sl_base_quotients::NoMemory;
use sl_ratio::Names;
use sl_stages::{MAX_LANDS, MAX_PARTIES, MAX_WINS};
use std::alloc::Global;

// The names and the lots of the returns, beside them: a name is found by its bytes, and a lot by its key.
#[derive(Drop)]
pub(crate) struct Index {
    pub(crate) lands: Names,
    pub(crate) parties: Names,
    pub(crate) winners: Names,
    pub(crate) lots: ToldLots,
}

impl Index {
    // The index of returns without a record. Takes no memory.
    pub(crate) fn new(alloc: Global) -> Index
        ensures { result ≡ index_of no_election }
    {
        Index {
            lands: Names::new(alloc, MAX_LANDS),
            parties: Names::new(alloc, MAX_PARTIES),
            winners: Names::new(alloc, MAX_WINS),
            lots: ToldLots::new(alloc),
        }
    }
}

// Adds a name that may join the list.
pub(crate) fn add_name(names: &mut Names, name: &[u8]) -> Result<(), NoMemory>
    requires { name_fault names.old name.now ≡ None }
    ensures { OnOk result (names.new ≡ record names.old { names = names.old.names ++ name.now ∷ [] }) }
{
    match names.add(name) {
        Ok(_) => Ok(()),
        Err(_) => Err(NoMemory),
    }
}

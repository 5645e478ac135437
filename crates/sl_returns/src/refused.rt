//! Returns that are refused, with what an explanation needs of their records.

ghost use Rattle.std.specs.Prelude.{◌≡◌};

use crate::fault::ReturnsFault;
use csv::ByteRecord;
use sl_stages::Returns;

/// How many of the further records that are refused are handed on.
pub const MAX_FURTHER: usize = 20;

/// How many Länder, parties, winners and lots the records have that were taken before a record. They have the first numbers in the returns of all
/// the records that were taken.
#[derive(Clone, Copy)]
pub struct Before {
    pub lands: usize,
    pub parties: usize,
    pub wins: usize,
    pub lots: usize,
}

impl Before {
    ghost use Rattle.std.specs.Prelude.{length};
    ghost use Rattle.sl_law_meaning.specs.returns.Election.{lands_of, parties_of, wins_of};

    // What these returns have.
    pub(crate) fn of(returns: &Returns) -> Before
        ensures lands { result.lands ≡ lands_of returns.now }
        ensures parties { result.parties ≡ parties_of returns.now }
        ensures wins { result.wins ≡ wins_of returns.now }
        ensures lots { result.lots ≡ length returns.now.lots }
    {
        Before {
            lands: returns.lands(),
            parties: returns.parties(),
            wins: returns.wins(),
            lots: returns.lots().len(),
        }
    }
}

/// A record that is refused: its fault, its fields, and what the records before it have that were taken.
#[derive(Drop)]
pub struct RefusedRecord {
    pub fault: ReturnsFault,
    pub record: ByteRecord,
    pub before: Before,
}

/// Returns that are refused: the fault, the fields of the record that has it, and what the records before it have. Reading goes on after it, where
/// each record that is refused is left out for those after it: the further ones that are refused, and how many of these are not handed on.
#[derive(Drop)]
pub struct RefusedReturns {
    pub fault: ReturnsFault,
    /// None where the records lack a header or a Land, or when out of memory.
    pub record: ByteRecord,
    pub before: Before,
    pub further: Vec<RefusedRecord>,
    pub more: u64,
    /// The returns of the records that were taken.
    pub taken: Returns,
}

//! The records of a text, of which each that is refused is left out for those after it.

ghost use Rattle.std.specs.Prelude.{[], ◌++◌, ◌∷◌, ◌≡◌, false, IfOk, List, OnOk, true};
ghost use Rattle.csv.specs.Reading.{error_kind, stops_reader};
ghost use Rattle.csv.specs.Records.{fields_of};
ghost use Rattle.sl_returns.specs.Cells.{Record};
ghost use Rattle.sl_returns.specs.Further.{Refusal, refusal, refusals_for};
ghost use Rattle.sl_returns.specs.inner.Building.{StandsFor};
ghost use Rattle.sl_returns.specs.inner.Sifting.{GoesOn, HasEnded, IsSifted, Keeps};
ghost use Rattle.sl_returns.specs.Returns.{records_in};

use crate::builder::ReturnsBuilder;
use crate::fault::ReturnsFault;
use crate::read::reader_of;
use crate::refused::{Before, MAX_FURTHER, RefusedRecord};
use csv::{ByteRecord, ErrorKind};
use sl_base_quotients::NoMemory;
use std::alloc::Global;
use std::mem;

// What is kept of the records that are refused: the first, the first of those after it, and the number of the others.
#[derive(Drop)]
pub(crate) struct Refusals {
    pub(crate) first: Option<RefusedRecord>,
    pub(crate) further: Vec<RefusedRecord>,
    pub(crate) more: u64,
}

impl Refusals {
    // Of no record. Takes no memory.
    pub(crate) fn new(alloc: Global) -> Refusals
        ensures { Keeps result [] }
    {
        Refusals {
            first: None,
            further: Vec::new(alloc),
            more: 0,
        }
    }

    // Adds a record that is refused.
    fn add(&mut self, refused: RefusedRecord) -> Result<(), NoMemory>
        ensures { (all : List Refusal) → Keeps self.old all → OnOk result (Keeps self.new (all ++ refusal refused ∷ [])) }
    {
        if self.first.is_none() {
            self.first = Some(refused);
        } else if self.further.len() < MAX_FURTHER {
            self.further.push(refused)?;
        } else {
            // no text in memory has so many records
            self.more = self.more.checked_add(1).ok_or(NoMemory)?;
        }
        Ok(())
    }

    // Adds a record in which a fault was found, if one was.
    fn note(
        &mut self,
        alloc: Global,
        found: Option<ReturnsFault>,
        before: Before,
        fields: &mut ByteRecord,
    ) -> Result<(), NoMemory>
        ensures { (all : List Refusal) → Keeps self.old all → OnOk result (Keeps self.new (all ++ refusals_for found (fields_of fields.old))) }
    {
        match found {
            None => Ok(()),
            Some(fault) => {
                let record = mem::replace(fields, ByteRecord::new(alloc));
                self.add(RefusedRecord {
                    fault,
                    record,
                    before,
                })
            }
        }
    }
}

// Takes the next record, or leaves it out and keeps it with its fault. Whether those after it count: not where it is to be the header and is none.
fn sift(
    alloc: Global,
    builder: &mut ReturnsBuilder,
    refusals: &mut Refusals,
    fields: &mut ByteRecord,
) -> Result<bool, NoMemory>
    ensures goes { (rs : List Record) → GoesOn builder.old refusals.old rs → IfOk result (λ goes. goes ≡ true → GoesOn builder.new refusals.new (rs ++ fields_of fields.old ∷ [])) }
    ensures ends { (rs : List Record) → GoesOn builder.old refusals.old rs → IfOk result (λ goes. goes ≡ false → HasEnded builder.new refusals.new (rs ++ fields_of fields.old ∷ [])) }
{
    let found = builder.offer(fields)?;
    refusals.note(alloc, found, builder.before(), fields)?;
    Ok(builder.has_header())
}

/// Feeds a builder that has taken no record those of a text, and keeps those that it refuses: each of these is left out for those after it.
///
/// # Errors
///
/// Out of memory.
pub(crate) fn sift_all(
    alloc: Global,
    bytes: &[u8],
    builder: &mut ReturnsBuilder,
    refusals: &mut Refusals,
) -> Result<(), NoMemory>
    requires builder { StandsFor builder.old [] }
    requires refusals { Keeps refusals.old [] }
    ensures { OnOk result (IsSifted builder.new refusals.new (records_in bytes.now)) }
{
    let mut reader = reader_of(alloc, bytes);
    let mut fields = ByteRecord::new(alloc);
    // no text in memory has so many records
    for _ in 0..u64::MAX {
        match reader.read_byte_record(&mut fields) {
            Ok(true) => {
                if !sift(alloc, builder, refusals, &mut fields)? {
                    return Ok(());
                }
            }
            Ok(false) => return Ok(()),
            Err(error) => return Err(stopped(error)),
        }
    }
    Err(NoMemory)
}

/// What it means that the reader of a text in memory stopped: memory ran out, since such a text is always read.
pub fn stopped(error: csv::Error) -> NoMemory
    requires { stops_reader (error_kind error) ≡ true }
{
    match error.into_kind() {
        ErrorKind::OutOfMemory | ErrorKind::Io(_) => NoMemory,
        _ => unreachable!(),
    }
}

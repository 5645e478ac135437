//! Full names of Länder, parties and constituencies, by their short ones.

ghost use Rattle.std.specs.Prelude.{◌≡◌, IfErr, IfOk, None, Some, is_some};
ghost use Rattle.std.specs.Str.{is_utf8};
ghost use Rattle.csv.specs.Records.{field_at, fields_of};
ghost use Rattle.sl_report_tables.specs.Names.{is_pair, is_text, wrong_record};
ghost use Rattle.sl_returns.specs.Returns.{records_in};

use csv::ByteRecord;
use sl_base_quotients::NoMemory;
use sl_returns::{reader_of, stopped};
use std::alloc::Global;
use std::collections::HashMap;

/// Full names by short ones.
#[derive(Drop)]
pub struct FullNames {
    names: HashMap<String, String>,
}

// A cell of a record as text, if there is one that is UTF-8.
fn text_at(fields: &ByteRecord, place: usize) -> Option<&str>
    ensures { is_some result ≡ is_text (field_at (fields_of fields.now) place) }
{
    std::str::from_utf8(fields.get(place)?).ok()
}

// The short name and the full one of a record that has just these.
fn pair_of(fields: &ByteRecord) -> Option<(&str, &str)>
    ensures { is_some result ≡ is_pair (fields_of fields.now) }
{
    if fields.len() != 2 {
        return None;
    }
    Some((text_at(fields, 0)?, text_at(fields, 1)?))
}

impl FullNames {
    /// No full names. Takes no memory.
    pub fn none(alloc: Global) -> FullNames {
        FullNames {
            names: HashMap::new(alloc),
        }
    }

    // Adds a pair of names.
    fn insert(&mut self, alloc: Global, short: &str, full: &str) -> Result<(), NoMemory> {
        let short = String::from_str(alloc, short)?;
        drop(self.names.insert(short, String::from_str(alloc, full)?)?);
        Ok(())
    }

    // Adds the pair of names of a record. Whether it is one.
    fn add(&mut self, alloc: Global, fields: &ByteRecord) -> Result<bool, NoMemory>
        ensures { IfOk result (λ is. is ≡ is_pair (fields_of fields.now)) }
    {
        match pair_of(fields) {
            Some((short, full)) => {
                self.insert(alloc, short, full)?;
                Ok(true)
            }
            None => Ok(false),
        }
    }

    // Adds the pairs of names of all records of a text, or answers with the number of the first one that is none.
    fn add_all(&mut self, alloc: Global, bytes: &[u8]) -> Result<Option<u64>, NoMemory>
        ensures { IfOk result (λ wrong. wrong ≡ wrong_record bytes.now) }
    {
        let mut reader = reader_of(alloc, bytes);
        let mut fields = ByteRecord::new(alloc);
        // no text in memory has so many records
        for row in 1..u64::MAX {
            match reader.read_byte_record(&mut fields) {
                Ok(true) => {
                    if !self.add(alloc, &fields)? {
                        return Ok(Some(row));
                    }
                }
                Ok(false) => return Ok(None),
                Err(error) => return Err(stopped(error)),
            }
        }
        Err(NoMemory)
    }

    /// The names of a text of comma-separated values: in each record a short name and a full one, which is UTF-8. `Err` has the number of the first
    /// record that is none, from 1.
    pub fn read(alloc: Global, bytes: &[u8]) -> Result<Result<FullNames, u64>, NoMemory>
        ensures good { IfOk result (λ read. IfOk read (λ _. wrong_record bytes.now ≡ None)) }
        ensures wrong { IfOk result (λ read. IfErr read (λ row. wrong_record bytes.now ≡ Some row)) }
    {
        let mut names = FullNames::none(alloc);
        match names.add_all(alloc, bytes)? {
            Some(row) => Ok(Err(row)),
            None => Ok(Ok(names)),
        }
    }

    /// Whether there is no full name.
    pub fn is_empty(&self) -> bool {
        self.names.is_empty()
    }

    /// The full name of a short one, if there is one.
    pub fn full(&self, short: &str) -> Option<&str> {
        match self.names.get(short) {
            Some(full) => Some(full.as_str()),
            None => None,
        }
    }
}

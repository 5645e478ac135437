//! Returns, built record by record.

ghost use Rattle.std.specs.Prelude.{◌≡◌, ◌++◌, ◌∷◌, [], List, None, Some, OnOk, IfOk, IfErr, IfSome, Ok, Err, is_some, length};
ghost use Rattle.csv.specs.Records.{fields_of};
ghost use Rattle.sl_returns.specs.Cells.{Record};
ghost use Rattle.sl_returns.specs.inner.Indexed.{index_of};
ghost use Rattle.sl_returns.specs.inner.Joining.{OwnFault, TakesRecord, RefusesRecord};

use crate::fault::{FaultKind, RecordFault, ReturnsFault};
use crate::header::Version;
use crate::index::Index;
use crate::join::join;
use crate::near::Near;
use crate::refused::Before;
use csv::ByteRecord;
use sl_base_quotients::NoMemory;
use sl_stages::Returns;
use std::alloc::Global;
use std::marker::Model;

/// Returns that are being read, record by record. The first record is the header.
#[derive(Drop)]
pub struct ReturnsBuilder {
    returns: Returns,
    // the names and the lots of the returns
    index: Index,
    // where the next list mostly stands
    near: Near,
    // the version that the header gave
    version: Option<Version>,
    // the row of the last record
    row: u32,
    fault: Option<ReturnsFault>,
}

impl Model for ReturnsBuilder {
    ghost use Rattle.std.specs.Prelude.{◌≡◌, None};
    ghost use Rattle.sl_returns.specs.inner.Building.{Building};
    ghost use Rattle.sl_returns.specs.inner.Indexed.{index_of};

    ghost Value = { Building };

    ghost view = { λ b. record { election = b.returns; version = b.version; row = b.row; fault = b.fault } };

    // until it has failed, it finds just the names and the lots of the returns
    ghost invariant = { λ b. b.fault ≡ None → b.index ≡ index_of b.returns };
}

impl ReturnsBuilder {
    ghost use Rattle.sl_returns.specs.inner.Building.{Building, HasRowBehind, StandsFor, RefusesLast};
    ghost use Rattle.sl_returns.specs.inner.Sifting.{HasSifted, Sifts};
    ghost use Rattle.sl_returns.specs.Returns.{returns_of};

    /// A builder that has taken no record. Takes no memory.
    pub fn new(alloc: Global) -> ReturnsBuilder
        ensures { StandsFor result [] }
    {
        ReturnsBuilder {
            returns: Returns::empty(alloc),
            index: Index::new(alloc),
            near: Near::first(),
            version: None,
            row: 0,
            fault: None,
        }
    }

    /// Takes the next record.
    ///
    /// # Errors
    ///
    /// The record is no header where it must be, or the first test that it fails; or out of memory. The builder has
    /// then failed: it answers the same from then on.
    pub fn feed(&mut self, fields: &ByteRecord) -> Result<(), ReturnsFault>
        ensures taken { (rs : List Record) → StandsFor self.old rs → OnOk result (StandsFor self.new (rs ++ fields_of fields.now ∷ [])) }
        ensures refused { (rs : List Record) → StandsFor self.old rs → IfErr result (RefusesLast (rs ++ fields_of fields.now ∷ [])) }
        ensures row { (rs : List Record) → StandsFor self.old rs → IfErr result (HasRowBehind (length rs)) }

        // after a refusal it has failed, and a builder that has failed refuses with the same fault
        ensures fails { IfErr result (λ f. self.new.fault ≡ Some f) }
        ensures failed { IfSome self.old.fault (λ f. result ≡ Err f) }
    {
        if let Some(fault) = self.fault {
            return Err(fault);
        }
        let row = self.row.saturating_add(1);
        match take(
            &mut self.returns,
            &mut self.index,
            &mut self.near,
            self.version,
            fields,
        ) {
            Ok(version) => {
                self.version = Some(version);
                self.row = row;
                Ok(())
            }
            Err(why) => {
                let fault = ReturnsFault::at(row, why);
                self.fault = Some(fault);
                Err(fault)
            }
        }
    }

    // Takes the next record, or leaves it out as if it were not there, and answers its fault. The builder goes on then.
    //
    // Out of memory, or the builder has failed.
    pub(crate) fn offer(&mut self, fields: &ByteRecord) -> Result<Option<ReturnsFault>, NoMemory>
        ensures { (rs : List Record) → HasSifted self.old rs → IfOk result (Sifts self.new rs (fields_of fields.now)) }
    {
        if self.fault.is_some() {
            return Err(NoMemory);
        }
        let row = self.row.saturating_add(1);
        match take(
            &mut self.returns,
            &mut self.index,
            &mut self.near,
            self.version,
            fields,
        ) {
            Ok(version) => {
                self.version = Some(version);
                self.row = row;
                Ok(None)
            }
            Err(why) if why.kind == FaultKind::NoMemory => {
                self.fault = Some(ReturnsFault::at(row, why));
                Err(NoMemory)
            }
            Err(why) => {
                self.row = row;
                Ok(Some(ReturnsFault::at(row, why)))
            }
        }
    }

    // Whether the first record was a header.
    pub(crate) fn has_header(&self) -> bool
        ensures { result ≡ is_some self.now.version }
    {
        self.version.is_some()
    }

    // What the records have that were taken.
    pub(crate) fn before(&self) -> Before {
        Before::of(&self.returns)
    }

    /// The returns that the records give.
    ///
    /// # Errors
    ///
    /// The fault with which the builder has failed; or that there is no header, or no Land. Takes no memory.
    pub fn finish(self) -> Result<Returns, ReturnsFault>
        ensures finished { (rs : List Record) → StandsFor self rs → result ≡ returns_of rs }
        ensures failed { IfSome self.fault (λ f. result ≡ Err f) }
    {
        let checked = self.check();
        checked.and(Ok(self.into_returns()))
    }

    // The returns of the records that were taken.
    pub(crate) fn into_returns(self) -> Returns
        ensures { result ≡ self.election }
    {
        let ReturnsBuilder { returns, index, .. } = self;
        drop(index);
        returns
    }

    // Whether the records give returns, or the fault with which the builder has failed; or that there is no header, or no Land.
    pub(crate) fn check(&self) -> Result<(), ReturnsFault>
        ensures finished { (rs : List Record) → StandsFor self.now rs → OnOk result (returns_of rs ≡ Ok self.now.election) }
        ensures refused { (rs : List Record) → StandsFor self.now rs → IfErr result (λ f. returns_of rs ≡ Err f) }
        ensures failed { IfSome self.now.fault (λ f. result ≡ Err f) }
    {
        if let Some(fault) = self.fault {
            return Err(fault);
        }
        if self.row == 0 {
            return Err(ReturnsFault::at(1, FaultKind::Header.of_record()));
        }
        if self.returns.lands() == 0 {
            return Err(ReturnsFault::at(self.row, FaultKind::NoLand.of_record()));
        }
        Ok(())
    }
}

// Takes a record, which must be the header where none has given its version, and answers the version.
fn take(
    returns: &mut Returns,
    index: &mut Index,
    near: &mut Near,
    version: Option<Version>,
    fields: &ByteRecord,
) -> Result<Version, RecordFault>
    requires index { index.old ≡ index_of returns.old }
    ensures taken { IfOk result (λ v. TakesRecord version v returns.old returns.new (fields_of fields.now)) }
    ensures index { OnOk result (index.new ≡ index_of returns.new) }
    ensures refused { IfErr result (RefusesRecord version returns.old (fields_of fields.now)) }
    ensures unchanged { OwnFault result ((returns.new ≡ returns.old) × (index.new ≡ index.old)) }
{
    match version {
        None => Version::of(fields).ok_or(FaultKind::Header.of_record()),
        Some(version) => {
            join(returns, index, near, version, fields)?;
            Ok(version)
        }
    }
}

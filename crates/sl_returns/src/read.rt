//! Returns from bytes.

ghost use Rattle.std.specs.Prelude.{[], ◌≡◌, ◌⊎◌, IfOk, IfErr, List, Ok, Err, Some, true};
ghost use Rattle.csv.specs.Reading.{default_config, is_flexible, Ready, reader_config, reader_state, reader_trim, source_of, strip_bom};
ghost use Rattle.csv.specs.declared.parser.State.TheVariants as st;
ghost use Rattle.csv.specs.declared.reader.Trim.TheVariants as trim;
ghost use Rattle.csv.specs.Records.{fields_of};
ghost use Rattle.sl_returns.specs.inner.Building.{StandsFor};
ghost use Rattle.sl_returns.specs.inner.Sifting.{IsSifted};
ghost use Rattle.sl_returns.specs.inner.Texts.{left_of};
ghost use Rattle.sl_returns.specs.Cells.{Record};
ghost use Rattle.sl_returns.specs.Faults.{no_memory};
ghost use Rattle.sl_returns.specs.Further.{HasFurther};
ghost use Rattle.sl_returns.specs.Returns.{AreRefused, records_in, returns_of};

use crate::builder::ReturnsBuilder;
use crate::fault::{FaultKind, ReturnsFault};
use crate::refused::{RefusedRecord, RefusedReturns};
use crate::sieve::{Refusals, sift_all};
use csv::{ByteRecord, Reader, ReaderBuilder};
use sl_stages::Returns;
use std::alloc::Global;

/// The returns that the records of a text give, or what an explanation needs of the records for which they are refused: of the first, and of the
/// further ones, where each that is refused is left out for those after it.
///
/// # Errors
///
/// The first fault of the records; or out of memory.
pub fn read_or_refuse(alloc: Global, bytes: &[u8]) -> Result<Returns, RefusedReturns>
    ensures ok { IfOk result (λ r. returns_of (records_in bytes.now) ≡ Ok r) }
    ensures err { IfErr result (λ r. (r.fault ≡ no_memory) ⊎ AreRefused (records_in bytes.now) r) }
    ensures further { IfErr result (λ r. (r.fault ≡ no_memory) ⊎ HasFurther (records_in bytes.now) r) }
{
    let mut builder = ReturnsBuilder::new(alloc);
    let mut refusals = Refusals::new(alloc);
    match sift_all(alloc, bytes, &mut builder, &mut refusals) {
        Ok(()) => finish(alloc, builder, refusals),
        Err(_) => {
            let fault = ReturnsFault::at(0, FaultKind::NoMemory.of_record());
            Err(refused_whole(alloc, builder, fault))
        }
    }
}

/// The returns that the records of a text give.
///
/// # Errors
///
/// The first fault of the records; or out of memory.
pub fn read_returns(alloc: Global, bytes: &[u8]) -> Result<Returns, ReturnsFault>
    ensures ok { IfOk result (λ r. returns_of (records_in bytes.now) ≡ Ok r) }
    ensures err { IfErr result (λ f. (f ≡ no_memory) ⊎ (returns_of (records_in bytes.now) ≡ Err f)) }
{
    match read_or_refuse(alloc, bytes) {
        Ok(returns) => Ok(returns),
        Err(refused) => Err(refused.fault),
    }
}

// Returns that are refused for no record of theirs.
fn refused_whole(alloc: Global, builder: ReturnsBuilder, fault: ReturnsFault) -> RefusedReturns
    ensures fault { result.fault ≡ fault }
    ensures fields { fields_of result.record ≡ [] }
    ensures further { result.further.items ≡ [] }
    ensures more { result.more ≡ 0 }
{
    let before = builder.before();
    RefusedReturns {
        fault,
        record: ByteRecord::new(alloc),
        before,
        further: Vec::new(alloc),
        more: 0,
        taken: builder.into_returns(),
    }
}

// The returns of a builder that has taken the last record, or what they lack.
fn finish_taken(alloc: Global, builder: ReturnsBuilder) -> Result<Returns, RefusedReturns>
    ensures ok { (rs : List Record) → StandsFor builder rs → IfOk result (λ r. returns_of rs ≡ Ok r) }
    ensures err { (rs : List Record) → StandsFor builder rs → IfErr result (AreRefused rs) }
    ensures further { IfErr result (λ r. r.further.items ≡ []) }
    ensures more { IfErr result (λ r. r.more ≡ 0) }
{
    match builder.check() {
        Ok(()) => Ok(builder.into_returns()),
        Err(fault) => Err(refused_whole(alloc, builder, fault)),
    }
}

// Returns of which a record is refused.
fn refused_for(
    builder: ReturnsBuilder,
    first: RefusedRecord,
    further: Vec<RefusedRecord>,
    more: u64,
) -> RefusedReturns
    ensures fault { result.fault ≡ first.fault }
    ensures fields { result.record ≡ first.record }
    ensures further { result.further ≡ further }
    ensures more { result.more ≡ more }
{
    let RefusedRecord {
        fault,
        record: fields,
        before,
    } = first;
    RefusedReturns {
        fault,
        record: fields,
        before,
        further,
        more,
        taken: builder.into_returns(),
    }
}

// The returns of a builder, unless a record is refused; or what they lack.
fn finish(
    alloc: Global,
    builder: ReturnsBuilder,
    refusals: Refusals,
) -> Result<Returns, RefusedReturns>
    ensures ok { (rs : List Record) → IsSifted builder refusals rs → IfOk result (λ r. returns_of rs ≡ Ok r) }
    ensures err { (rs : List Record) → IsSifted builder refusals rs → IfErr result (AreRefused rs) }
    ensures further { (rs : List Record) → IsSifted builder refusals rs → IfErr result (HasFurther rs) }
{
    let Refusals {
        first,
        further,
        more,
    } = refusals;
    match first {
        None => finish_taken(alloc, builder),
        Some(first) => Err(refused_for(builder, first, further, more)),
    }
}

/// A reader of the records of a text, of any number of cells each.
pub fn reader_of(alloc: Global, bytes: &[u8]) -> Reader<&[u8]>
    ensures trims { reader_trim result ≡ trim.None }
    ensures ready { Ready result }
    ensures config { reader_config result ≡ default_config }
    ensures flexible { is_flexible result ≡ true }
    ensures source { source_of left_of result ≡ Some (strip_bom bytes.now) }
    ensures state { reader_state result ≡ st.StartRecord }
{
    ReaderBuilder::new()
        .has_headers(false)
        .flexible(true)
        .from_reader(alloc, bytes)
}

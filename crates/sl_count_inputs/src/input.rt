//! Reading an input to its end, and writing a text whole.

ghost use Rattle.std.specs.Prelude.{◌≡◌, ◌+◌, ◌<◌, ◌^◌, ◌++◌, [], IfOk, OnOk, IfErr, IfSome};
ghost use Rattle.sl_count_inputs.specs.Failures.{failures_after, input_counts, counts_after};
ghost use Rattle.sl_count_inputs.specs.Inputs.{Holds, IsWithin};
ghost use Rattle.sl_count_inputs.specs.Reading.{TakesAtMost};
ghost use Rattle.sl_count_inputs.specs.Writing.{Writes};
ghost use Rattle.sl_count_inputs.specs.declared.status.DeskError.TheVariants as fault;

use crate::sink::Sink;
use crate::source::{Failed, Source};
use crate::status::{DeskError, Input};
use std::alloc::{AllocError, Global};

/// An input: its bytes, if they are not too many.
#[derive(Drop)]
pub enum Bytes {
    Whole(Vec<u8>),
    TooLong,
}

const CHUNK: usize = 8192;

// So many bytes have room from the first on: most inputs have fewer.
const FIRST_ROOM: usize = 65_536;

// No bytes yet, with room for so many.
fn with_room(alloc: Global, room: usize) -> Result<Vec<u8>, DeskError>
    ensures none { IfOk result (λ bytes. bytes.items ≡ []) }
    ensures error { IfErr result (λ e. e ≡ fault.NoMemory) }
{
    let Ok(bytes) = Vec::with_capacity(alloc, room) else {
        return Err(DeskError::NoMemory);
    };
    Ok(bytes)
}

// Adds bytes. Where the room that is left does not do, it grows by `room` bytes at once, so that the bytes move once at most.
fn add(bytes: &mut Vec<u8>, piece: &[u8], room: usize) -> Result<(), AllocError>
    ensures { OnOk result (bytes.new.items ≡ bytes.old.items ++ piece.now) }
{
    if piece.len() > bytes.capacity() - bytes.len() {
        bytes.reserve(room)?;
    }
    bytes.extend_from_slice(piece)
}

/// All bytes of an input, if they are at most `limit`. It is read to at most one byte past that.
///
/// # Errors
///
/// `Read` of that input where a call of the source failed, which is then the last one, and `NoMemory`.
pub fn read_all<S: Source>(
    alloc: Global,
    source: &mut S,
    input: Input,
    limit: usize,
) -> Result<Bytes, DeskError>
    requires { limit < 2 ^ 32 }
    ensures bytes { IfOk result (λ b. IfSome (S.remaining source.old) (Holds limit b)) }
    ensures within { IfOk result (IsWithin limit) }
    ensures failures { input_counts input (S.failed source.new) ≡ counts_after (input_counts input (S.failed source.old)) result }
    ensures limited { TakesAtMost (limit + 1) (S.remaining source.old) (S.remaining source.new) }
{
    let mut bytes = with_room(alloc, FIRST_ROOM)?;
    let mut chunk = [0; CHUNK];
    'reading: while bytes.len() <= limit {
        let room = (limit + 1 - bytes.len()).min(CHUNK);
        let Ok(n) = source.fetch(&mut chunk[..room]) else {
            return Err(DeskError::Read(input));
        };
        if n == 0 {
            return Ok(Bytes::Whole(bytes));
        }
        if add(&mut bytes, &chunk[..n], limit + 1).is_err() {
            return Err(DeskError::NoMemory);
        }
    }
    Ok(Bytes::TooLong)
}

/// Writes a whole text.
///
/// # Errors
///
/// A call of the sink failed, which is then the last one. A prefix of the text has gone out.
pub fn write_all<W: Sink>(out: &mut W, text: &[u8]) -> Result<(), Failed>
    ensures written { Writes text.now (W.contents out.old) (W.contents out.new) result }
    ensures failures { W.failed out.new ≡ failures_after (W.failed out.old) result }
{
    let mut rest = text;
    'writing: while !rest.is_empty() {
        let n = out.put(rest)?;
        let (_, after) = rest.split_at(n);
        rest = after;
    }
    Ok(())
}

//! Reads the bytes of a code from the front.

ghost use Rattle.std.specs.Prelude.{◌≡◌, ◌+◌, ◌<◌, ◌∷◌, ◌++◌, [], length, IfOk, IfErr};
ghost use Rattle.sl_code.specs.declared.fault.Cause.TheVariants as causes;
ghost use Rattle.sl_code_instructions.specs.declared.parts.Operand.TheVariants as operands;
ghost use Rattle.sl_code.specs.Operands.{two_bytes, four_bytes, eight_bytes, is_any, tests_of};
ghost use Rattle.sl_code.specs.Faults.{stop_at};
ghost use Rattle.sl_code.specs.Reading.{Ends, FailsAhead};

use crate::fault::{Cause, Stop};
use crate::number::FromNumber;
use sl_code_instructions::Registers;
use std::marker::Model;

/// The bytes that are still to be read.
#[derive(Drop)]
pub(crate) struct Reader<'a> {
    rest: &'a [u8],
}

impl<'a> Model for Reader<'a> {
    ghost use Rattle.std.specs.Prelude.{ℕ, List};

    ghost Value = { List ℕ };

    ghost view = { λ r. r.rest.now };
}

impl<'a> Reader<'a> {
    pub fn new(bytes: &'a [u8]) -> Reader<'a>
        ensures { result ≡ bytes.now }
    {
        Reader { rest: bytes }
    }

    /// The bytes that are left.
    pub fn rest(&self) -> &'a [u8]
        ensures { result.now ≡ self.now }
    {
        self.rest
    }

    /// How many bytes are left.
    pub fn left(&self) -> usize
        ensures { result ≡ length self.now }
    {
        self.rest.len()
    }

    /// A fault in front of the next byte.
    pub fn stop(&self, cause: Cause) -> Stop
        ensures { result ≡ stop_at cause self.now }
    {
        Stop {
            cause,
            left: self.rest.len(),
        }
    }

    /// A fault where the bytes end.
    fn end(&self) -> Stop
        ensures { result ≡ stop_at causes.Short [] }
    {
        Stop {
            cause: Cause::Short,
            left: 0,
        }
    }

    /// A byte of any value: a register, a slot or a stage.
    pub fn byte(&mut self) -> Result<u8, Stop>
        ensures ok { IfOk result (λ b. self.old ≡ b ∷ self.new) }
        ensures err { IfErr result (Ends self.old) }
    {
        let Some((byte, rest)) = self.rest.split_first() else {
            return Err(self.end());
        };
        self.rest = rest;
        Ok(*byte)
    }

    /// Two such bytes.
    pub fn pair(&mut self) -> Result<(u8, u8), Stop>
        ensures ok { IfOk result (λ p. self.old ≡ p.0 ∷ p.1 ∷ self.new) }
        ensures err { IfErr result (FailsAhead (is_any ∷ is_any ∷ []) self.old) }
    {
        let first = self.byte()?;
        let second = self.byte()?;
        Ok((first, second))
    }

    pub fn registers(&mut self) -> Result<Registers, Stop>
        ensures ok { IfOk result (λ x. self.old ≡ two_bytes x.mask ++ self.new) }
        ensures err { IfErr result (FailsAhead (is_any ∷ is_any ∷ []) self.old) }
    {
        let Some((bytes, rest)) = self.rest.split_first_chunk::<2>() else {
            return Err(self.end());
        };
        self.rest = rest;
        Ok(Registers { mask: two(*bytes) })
    }

    pub fn target(&mut self) -> Result<u32, Stop>
        ensures ok { IfOk result (λ x. self.old ≡ four_bytes x ++ self.new) }
        ensures err { IfErr result (FailsAhead (tests_of (operands.Target 0)) self.old) }
    {
        let Some((bytes, rest)) = self.rest.split_first_chunk::<4>() else {
            return Err(self.end());
        };
        self.rest = rest;
        Ok(four(*bytes))
    }

    pub fn value(&mut self) -> Result<u64, Stop>
        ensures ok { IfOk result (λ x. self.old ≡ eight_bytes x ++ self.new) }
        ensures err { IfErr result (FailsAhead (tests_of (operands.Value 0)) self.old) }
    {
        let Some((bytes, rest)) = self.rest.split_first_chunk::<8>() else {
            return Err(self.end());
        };
        self.rest = rest;
        Ok(eight(*bytes))
    }

    /// A byte that is the number of a value.
    pub fn numbered<T: FromNumber>(&mut self) -> Result<T, Stop>
        ensures ok { IfOk result (λ x. self.old ≡ T.number_of x ∷ self.new) }
        ensures err { IfErr result (FailsAhead (T.is_number ∷ []) self.old) }
    {
        let wrong = self.stop(Cause::Op);
        T::from_number(self.byte()?).ok_or(wrong)
    }
}

/// The number in two bytes, least first.
fn two(bytes: [u8; 2]) -> u16
    ensures { bytes ≡ two_bytes result }
{
    u16::from_le_bytes(bytes)
}

/// The number in four bytes, least first.
fn four(bytes: [u8; 4]) -> u32
    ensures { bytes ≡ four_bytes result }
{
    u32::from_le_bytes(bytes)
}

/// The number in eight bytes, least first.
fn eight(bytes: [u8; 8]) -> u64
    ensures { bytes ≡ eight_bytes result }
{
    u64::from_le_bytes(bytes)
}

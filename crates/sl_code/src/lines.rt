//! Lists the instructions of a code.

ghost use Rattle.std.specs.Prelude.{◌≡◌, ◌++◌, IfOk, OnOk};
ghost use Rattle.std.specs.Fmt.{decimal};
ghost use Rattle.sl_code.specs.Listing.{operand_word, line_of, listing_of};

use crate::append::{extend, push};
use sl_base_quotients::NoMemory;
use sl_code_instructions::{Code, Instr, Operand};
use std::alloc::Global;

/// The listing of a code: a line for each instruction, with its number, its name and its operands (docs/code.md, section 3).
pub fn listing(alloc: Global, code: &Code) -> Result<Vec<u8>, NoMemory>
    ensures { IfOk result (λ text. text.items ≡ listing_of code.now) }
{
    let mut text = Vec::new(alloc);
    for (number, instr) in code.instrs().iter().enumerate() {
        line(alloc, &mut text, number, *instr)?;
    }
    Ok(text)
}

fn line(alloc: Global, text: &mut Vec<u8>, number: usize, instr: Instr) -> Result<(), NoMemory>
    ensures { OnOk result (text.new.items ≡ text.old.items ++ line_of number instr) }
{
    decimal(alloc, text, number as u64)?;
    push(text, b' ')?;
    extend(text, instr.name())?;
    for operand in instr.operands().as_slice() {
        operand_word(alloc, text, *operand)?;
    }
    push(text, b'\n')
}

fn operand_word(alloc: Global, text: &mut Vec<u8>, operand: Operand) -> Result<(), NoMemory>
    ensures { OnOk result (text.new.items ≡ text.old.items ++ operand_word operand) }
{
    push(text, b' ')?;
    decimal(alloc, text, operand.value())
}

fn decimal(alloc: Global, text: &mut Vec<u8>, number: u64) -> Result<(), NoMemory>
    ensures { OnOk result (text.new.items ≡ text.old.items ++ decimal number) }
{
    let digits = number.to_string(alloc)?;
    extend(text, digits.as_bytes())
}

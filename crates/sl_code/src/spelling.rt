//! Writes a code as bytes.

ghost use Rattle.std.specs.Prelude.{◌≡◌, ◌++◌, IfOk, OnOk};
ghost use Rattle.sl_code.specs.Operands.{bytes_of};
ghost use Rattle.sl_code.specs.Spelling.{instr_bytes, stage_bytes, stages_part, slots_part, instrs_part, spelling_of};

use crate::append::{extend, extend_eight, extend_four, extend_two, push};
use sl_base_quotients::NoMemory;
use sl_code_instructions::{Code, CodeStage, Instr, Operand, TableState};
use sl_law_meaning::Shape;
use std::alloc::Global;

/// The letters and the version that each file begins with.
pub(crate) const OPENING: [u8; 4] = *b"SLC\x01";

/// The spelling of a code (docs/code.md, section 1). Each code has one (`laws::one_code`).
pub fn to_bytes(alloc: Global, code: &Code) -> Result<Vec<u8>, NoMemory>
    ensures { IfOk result (λ bytes. bytes.items ≡ spelling_of code.now) }
{
    let mut bytes = Vec::new(alloc);
    extend(&mut bytes, &OPENING)?;
    stages(&mut bytes, code)?;
    slots(&mut bytes, code)?;
    instrs(&mut bytes, code)?;
    Ok(bytes)
}

fn stages(bytes: &mut Vec<u8>, code: &Code) -> Result<(), NoMemory>
    ensures { OnOk result (bytes.new.items ≡ bytes.old.items ++ stages_part code.now.stages) }
{
    let stages = code.stages();
    push(bytes, stages.len() as u8)?;
    for each in stages {
        stage(bytes, each)?;
    }
    Ok(())
}

fn stage(bytes: &mut Vec<u8>, stage: &CodeStage) -> Result<(), NoMemory>
    ensures { OnOk result (bytes.new.items ≡ bytes.old.items ++ stage_bytes stage.now) }
{
    let name = stage.name.as_bytes();
    push(bytes, name.len() as u8)?;
    extend(bytes, name)?;
    push(bytes, stage.slot)
}

fn slots(bytes: &mut Vec<u8>, code: &Code) -> Result<(), NoMemory>
    ensures { OnOk result (bytes.new.items ≡ bytes.old.items ++ slots_part code.now.slots) }
{
    let slots = code.slots();
    push(bytes, slots.len() as u8)?;
    for shape in slots {
        push(bytes, shape.number())?;
    }
    Ok(())
}

fn instrs(bytes: &mut Vec<u8>, code: &Code) -> Result<(), NoMemory>
    ensures { OnOk result (bytes.new.items ≡ bytes.old.items ++ instrs_part code.now.instrs) }
{
    let instrs = code.instrs();
    extend_four(bytes, instrs.len() as u32)?;
    for each in instrs {
        instr(bytes, *each)?;
    }
    Ok(())
}

fn instr(bytes: &mut Vec<u8>, instr: Instr) -> Result<(), NoMemory>
    ensures { OnOk result (bytes.new.items ≡ bytes.old.items ++ instr_bytes instr) }
{
    push(bytes, instr.opcode())?;
    for each in instr.operands().as_slice() {
        operand(bytes, *each)?;
    }
    Ok(())
}

fn operand(bytes: &mut Vec<u8>, operand: Operand) -> Result<(), NoMemory>
    ensures { OnOk result (bytes.new.items ≡ bytes.old.items ++ bytes_of operand) }
{
    let number = match operand {
        Operand::Target(target) => return extend_four(bytes, target),
        Operand::Value(value) => return extend_eight(bytes, value),
        Operand::Positive(registers) => return extend_two(bytes, registers.mask),
        Operand::Register(number) | Operand::Slot(number) | Operand::Stage(number) => number,
        Operand::Scope(scope) => scope.number(),
        Operand::Entries(entries) => entries.number(),
        Operand::Ranking(ranking) => ranking.number(),
        Operand::Input(input) => input.number(),
        Operand::Method(method) => method.number(),
        Operand::Rounding(rounding) => rounding.number(),
        Operand::Fault(fault) => fault.number(),
        Operand::Cursors(cursors) => cursors.number(),
        Operand::Table(table) => TableState::number(table),
    };
    push(bytes, number)
}

//! A counting code: its instructions, its stages and its slots.

ghost use Rattle.std.specs.Prelude.{◌≡◌};
ghost use Rattle.sl_code_instructions.specs.Codes.{CountingCode};
ghost use Rattle.sl_code_instructions.specs.Proper.{IsProper};

use crate::instr::Instr;
use sl_base_terms::{Shape, Word};
use std::marker::Model;

/// Slots of a code.
pub const MAX_SLOTS: usize = 200;

/// Instructions of a code.
pub const MAX_INSTRS: usize = 200_000;

/// A stage: its name, and the slot of its column.
#[derive(Drop)]
pub struct CodeStage {
    pub name: Word,
    pub slot: u8,
}

/// A code that can be spelled: within the limits of its format, with names that are words and operands that fit their bytes
/// (docs/code.md, section 1).
#[derive(Drop)]
pub struct Code {
    instrs: Vec<Instr>,
    stages: Vec<CodeStage>,
    slots: Vec<Shape>,
}

impl Model for Code {
    ghost use Rattle.sl_code_instructions.specs.Codes.{CountingCode};
    ghost use Rattle.sl_code_instructions.specs.Proper.{IsProper};

    ghost Value = { CountingCode };

    ghost view = { λ c. record { instrs = c.instrs.items; stages = c.stages.items; slots = c.slots.items } };

    ghost invariant = { λ c. IsProper (record { instrs = c.instrs.items; stages = c.stages.items; slots = c.slots.items }) };
}

impl Code {
    /// The code of these parts. Takes no memory.
    pub fn new(instrs: Vec<Instr>, stages: Vec<CodeStage>, slots: Vec<Shape>) -> Code
        requires { IsProper (record { instrs = instrs.items; stages = stages.items; slots = slots.items }) }
        ensures { result ≡ record { instrs = instrs.items; stages = stages.items; slots = slots.items } }
    {
        Code {
            instrs,
            stages,
            slots,
        }
    }

    /// The instructions.
    pub fn instrs(&self) -> &[Instr]
        ensures instrs { result.now ≡ self.now.instrs }
        ensures kept { IsProper self.now }
    {
        self.instrs.as_slice()
    }

    /// The stages, in order.
    pub fn stages(&self) -> &[CodeStage]
        ensures stages { result.now ≡ self.now.stages }
        ensures kept { IsProper self.now }
    {
        self.stages.as_slice()
    }

    /// The shapes of the slots.
    pub fn slots(&self) -> &[Shape]
        ensures slots { result.now ≡ self.now.slots }
        ensures kept { IsProper self.now }
    {
        self.slots.as_slice()
    }
}

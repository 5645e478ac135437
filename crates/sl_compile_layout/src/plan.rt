//! Structured plans of counting code, mostly constants.

use sl_code_instructions::Instr;
use sl_compile_plans::{Bound, Cursor, Test};

/// A part of a line: an instruction, or the one of that number among those that are given when the plan is laid out.
#[derive(Clone, Copy)]
pub enum Part {
    Fixed(Instr),
    Given(u8),
}

/// Code as a tree. No instruction of a line jumps or declares; jumps and declarations come with the forms.
#[derive(Clone, Copy)]
pub enum Plan<'a> {
    /// Instructions one after the other.
    Line(&'a [Part]),
    /// An instruction that ends the run.
    Stop(Part),
    /// The one plan and then the other.
    Then(&'a Plan<'a>, &'a Plan<'a>),
    /// The first plan where the test holds, else the second.
    If(Test, &'a Plan<'a>, &'a Plan<'a>),
    /// The plan for each party, Land or winner in turn.
    Each(Cursor, &'a Plan<'a>),
    /// The plan, as long as the register is not 0. The register is one less in each turn, and 0 in the end.
    Times(u8, Bound, &'a Plan<'a>),
}

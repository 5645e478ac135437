//! The blocks of the columns that a rulebook can name (docs/compiler.md, section 2).

ghost use Rattle.std.specs.Prelude.{[], ◌∷◌, map, IfOk};
ghost use Rattle.sl_compile_pieces.specs.facts.Trees.{fact_tree};
ghost use Rattle.sl_compile_pieces.specs.exprs.Slots.{fact_slots};
ghost use Rattle.sl_blocks.specs.Facts.{HasFirstSlots, all_facts};
ghost use Rattle.sl_blocks.specs.PlanBlocks.{AreBlocks, HasRoom};
ghost use Rattle.sl_blocks.specs.inner.Few.{AreSmall, few_of};

use sl_base_quotients::NoMemory;
use sl_blocks::{Easiest, eligible_block, fact_block};
use sl_code_instructions::Instr;
use sl_law_meaning::{FACTS, Fact};

/// Appends the block of a fact.
fn lay_fact(code: &mut Vec<Instr>, fact: &Fact, house: u32) -> Result<(), NoMemory>
    requires { HasRoom (fact_tree fact_slots house fact.now ∷ []) code.old.items }
    ensures { IfOk result (λ _. AreBlocks HasFirstSlots (fact_tree fact_slots house fact.now ∷ []) code.old.items code.new.items) }
{
    fact_block(code, *fact, house)
}

/// Appends the blocks of facts, one after the other.
fn lay_each(code: &mut Vec<Instr>, facts: &[Fact], house: u32) -> Result<(), NoMemory>
    requires { HasRoom (map (fact_tree fact_slots house) facts.now) code.old.items }
    ensures { IfOk result (λ _. AreBlocks HasFirstSlots (map (fact_tree fact_slots house) facts.now) code.old.items code.new.items) }
{
    for fact in facts {
        lay_fact(code, fact, house)?;
    }
    Ok(())
}

/// Appends the blocks of the eligible parties and of all facts, with the house of the book.
///
/// # Errors
/// No memory was found.
pub fn lay_facts(code: &mut Vec<Instr>, few: &Easiest, house: u32) -> Result<(), NoMemory>
    requires room { HasRoom (all_facts (few_of few.now) house) code.old.items }
    requires small { AreSmall (few_of few.now) }
    ensures { IfOk result (λ _. AreBlocks HasFirstSlots (all_facts (few_of few.now) house) code.old.items code.new.items) }
{
    eligible_block(code, few)?;
    lay_each(code, &FACTS, house)
}

//! The code of a whole rulebook.

ghost use Rattle.std.specs.Prelude.{◌≡◌, [], IfOk, IsTrue};
ghost use Rattle.sl_law_meaning.specs.book.Books.{book_of};
ghost use Rattle.sl_law_meaning.specs.book.Typing.{is_typed, columns_of};
ghost use Rattle.sl_blocks.specs.inner.Few.{AreSmall, few_of};
ghost use Rattle.sl_compile.specs.Codes.{AreBookInstrs};
ghost use Rattle.sl_compile.specs.Compiled.{IsCompiled};
ghost use Rattle.sl_compile.specs.Laws.{CanCompile};
ghost use Rattle.sl_compile.specs.inner.Codes.{IsCodeOf};
ghost use Rattle.sl_compile.specs.inner.Earlier.{columns};
ghost use Rattle.sl_compile.specs.inner.Slots.{low_shapes};

use crate::closing::{halting, lay_last};
use crate::conditions::easiest;
use crate::earlier::Earlier;
use crate::facts::lay_facts;
use crate::naming::code_stages;
use crate::slots::{add_columns, low_slots};
use crate::stages::lay_stages;
use sl_base_quotients::NoMemory;
use sl_blocks::Easiest;
use sl_code_instructions::{Code, Instr};
use sl_code_semantics::Verified;
use sl_law_meaning::{Book, CheckedBook, ColumnType, MAX_STAGES, Shape};
use std::alloc::Global;

/// Appends the blocks of a book and its last instruction, and says what the column of each stage has.
fn lay_book(
    code: &mut Vec<Instr>,
    slots: &[Shape],
    few: &Easiest,
    book: &Book,
) -> Result<[ColumnType; MAX_STAGES], NoMemory>
    requires empty { code.old.items ≡ [] }
    requires slots { slots.now ≡ low_shapes }
    requires can { CanCompile (few_of few.now) (book_of book.now) }
    requires small { AreSmall (few_of few.now) }
    ensures have { IfOk result (λ types. columns book.now.stages.items types ≡ columns_of [] (book_of book.now).stages) }
    ensures blocks { IfOk result (λ _. AreBookInstrs (few_of few.now) (book_of book.now) code.new.items) }
{
    lay_facts(code, few, book.house.value)?;
    let types = lay_stages(code, slots, &book.stages)?;
    let earlier = Earlier {
        stages: &book.stages,
        types: &types,
    };
    lay_last(code, slots, &earlier, &book.last)?;
    code.push(halting(book.last.vacate))?;
    Ok(types)
}

/// The code of a book.
fn code_of(alloc: Global, book: &Book) -> Result<Code, NoMemory>
    requires { IsTrue (is_typed (book_of book.now)) }
    ensures { IfOk result (IsCodeOf (book_of book.now)) }
{
    let few = easiest(&book.eligible);
    let mut slots = low_slots(alloc)?;
    let mut instrs = Vec::new(alloc);
    let types = lay_book(&mut instrs, &slots, &few, book)?;
    add_columns(&mut slots, &types[..book.stages.len()])?;
    let stages = code_stages(alloc, &book.stages)?;
    Ok(Code::new(instrs, stages, slots))
}

/// The code of a book, whose runs end with what the book means (docs/compiler.md, section 8). That the verifier accepts it is proved, so
/// it is not asked.
///
/// # Errors
/// No memory was found.
pub fn compile(alloc: Global, book: &CheckedBook) -> Result<Verified, NoMemory>
    ensures { IfOk result (IsCompiled (book_of book.now.book)) }
{
    let code = code_of(alloc, &book.book)?;
    Ok(Verified::known(code))
}

//! The blocks that go over the cells of columns (docs/compiler.md, section 1).

ghost use Rattle.std.specs.Prelude.{◌≡◌, ◌+◌, ◌<◌, ℕ, [], ◌∷◌, true, IfOk, OnErr, vec_len};
ghost use Rattle.sl_code_instructions.specs.declared.instr.Instr.TheVariants.{Get, Store};
ghost use Rattle.sl_compile_layout.specs.inner.Layout.{tree_of};
ghost use Rattle.sl_compile_plans.specs.Trees.{size_of};
ghost use Rattle.sl_compile_pieces.specs.columns.Trees.{cells_plan, copy_tree, pair_instr, pair_tree, sum_tree};
ghost use Rattle.sl_law_meaning.specs.book.Typing.{can_sum};
ghost use Rattle.sl_blocks.specs.inner.Layout.{IsLaid};
ghost use Rattle.sl_blocks.specs.PlanBlocks.{AreBlocks, HasCopy, HasPair, HasRoom, HasSum};

use sl_base_quotients::NoMemory;
use sl_code_instructions::{Instr, MAX_INSTRS};
use sl_compile_layout::Part::{Fixed, Given};
use sl_compile_layout::{Cursor, Plan, lay};
use sl_compile_pieces::registers::{CELL, OTHER, TOTAL};
use sl_law_meaning::{Axis, Pairing, Shape};

const COPY: &Plan<'static> = &Plan::Line(&[Given(0), Given(1)]);

const PAIR: &Plan<'static> = &Plan::Line(&[Given(0), Given(1), Given(2), Given(3)]);

/// Appends the line for each cell of a column of that shape.
fn lay_cells(
    code: &mut Vec<Instr>,
    shape: Shape,
    line: &Plan<'_>,
    given: &[Instr],
) -> Result<(), NoMemory>
    requires { vec_len code.old + size_of (cells_plan shape (tree_of given.now line.now)) < MAX_INSTRS }
    ensures ok { IfOk result (λ _. IsLaid (cells_plan shape (tree_of given.now line.now)) (vec_len code.old) code.old.items code.new.items) }
    ensures err { OnErr result (code.new.items ≡ code.old.items) }
{
    let by_party = Plan::Each(Cursor::Party, &*line);
    let by_land = Plan::Each(Cursor::Land, &*line);
    let by_list = Plan::Each(Cursor::Land, &by_party);
    match shape {
        Shape::One => lay(code, line, given),
        Shape::Party => lay(code, &by_party, given),
        Shape::Land => lay(code, &by_land, given),
        Shape::List => lay(code, &by_list, given),
    }
}

/// Appends the block of a copy of a column.
///
/// # Errors
/// Without memory, the code is as it was.
pub fn copy_block(code: &mut Vec<Instr>, shape: Shape, from: u8, to: u8) -> Result<(), NoMemory>
    requires { HasRoom (copy_tree shape from to ∷ []) code.old.items }
    ensures ok { IfOk result (λ _. AreBlocks (HasCopy shape from to) (copy_tree shape from to ∷ []) code.old.items code.new.items) }
    ensures err { OnErr result (code.new.items ≡ code.old.items) }
{
    let given = [Instr::Get(CELL, from), Instr::Store(to, CELL)];
    lay_cells(code, shape, COPY, &given)
}

/// What two cells make, in place of the first.
fn pair_instr(pairing: Pairing) -> Instr
    ensures { result ≡ pair_instr pairing }
{
    match pairing {
        Pairing::Larger => Instr::Max(CELL, OTHER),
        Pairing::Less => Instr::Sub(CELL, OTHER),
    }
}

/// Appends the block of a pair of columns, cell by cell.
///
/// # Errors
/// Without memory, the code is as it was.
pub fn pair_block(
    code: &mut Vec<Instr>,
    pairing: Pairing,
    shape: Shape,
    left: u8,
    right: u8,
    to: u8,
) -> Result<(), NoMemory>
    requires { HasRoom (pair_tree pairing shape left right to ∷ []) code.old.items }
    ensures ok { IfOk result (λ _. AreBlocks (HasPair shape left right to) (pair_tree pairing shape left right to ∷ []) code.old.items code.new.items) }
    ensures err { OnErr result (code.new.items ≡ code.old.items) }
{
    let given = [
        Instr::Get(CELL, left),
        Instr::Get(OTHER, right),
        pair_instr(pairing),
        Instr::Store(to, CELL),
    ];
    lay_cells(code, shape, PAIR, &given)
}

/// The sum of the cells that the plan given goes over.
macro_rules! add_cells {
    ($cells:expr) => {
        &Plan::Then(
            &Plan::Line(&[Fixed(Instr::Set(TOTAL, 0))]),
            &Plan::Then($cells, &Plan::Line(&[Given(1)])),
        )
    };
}

const ADD_CELL: &Plan<'static> = &Plan::Line(&[Given(0), Fixed(Instr::Add(TOTAL, CELL))]);

const BY_PARTY: &Plan<'static> = &Plan::Each(
    Cursor::Party,
    add_cells!(&Plan::Each(Cursor::Land, ADD_CELL)),
);

const BY_LAND: &Plan<'static> = &Plan::Each(
    Cursor::Land,
    add_cells!(&Plan::Each(Cursor::Party, ADD_CELL)),
);

const OF_ONE: &Plan<'static> = add_cells!(ADD_CELL);

const OF_PARTIES: &Plan<'static> = add_cells!(&Plan::Each(Cursor::Party, ADD_CELL));

const OF_LANDS: &Plan<'static> = add_cells!(&Plan::Each(Cursor::Land, ADD_CELL));

const OF_LISTS: &Plan<'static> = add_cells!(&Plan::Each(
    Cursor::Land,
    &Plan::Each(Cursor::Party, ADD_CELL)
));

/// The plan of a sum of a column of that shape.
fn sum_plan(over: Axis, shape: Shape) -> &'static Plan<'static>
    ensures { (from to : ℕ) → tree_of (Get CELL from ∷ (Store to TOTAL ∷ [])) result.now ≡ sum_tree over shape from to }
{
    match over {
        Axis::Party => BY_PARTY,
        Axis::Land => BY_LAND,
        Axis::All => match shape {
            Shape::One => OF_ONE,
            Shape::Party => OF_PARTIES,
            Shape::Land => OF_LANDS,
            Shape::List => OF_LISTS,
        },
    }
}

/// Appends the block of a sum by party, by Land, or of all cells of a column of that shape, which can be summed so.
///
/// # Errors
/// Without memory, the code is as it was.
pub fn sum_block(
    code: &mut Vec<Instr>,
    over: Axis,
    shape: Shape,
    from: u8,
    to: u8,
) -> Result<(), NoMemory>
    requires room { HasRoom (sum_tree over shape from to ∷ []) code.old.items }
    requires can { can_sum shape over ≡ true }
    ensures ok { IfOk result (λ _. AreBlocks (HasSum over shape from to) (sum_tree over shape from to ∷ []) code.old.items code.new.items) }
    ensures err { OnErr result (code.new.items ≡ code.old.items) }
{
    let given = [Instr::Get(CELL, from), Instr::Store(to, TOTAL)];
    lay(code, sum_plan(over, shape), &given)
}

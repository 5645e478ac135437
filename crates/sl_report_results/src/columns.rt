//! The columns of expressions, and what the split or the growth of a stage distributes.

ghost use Rattle.std.specs.Prelude.{◌≡◌, ◌+◌, ◌*◌, ◌<◌, ◌≤◌, ◌∷◌, [], ℕ, true, false, Some, IfOk, IfSome, MatchOption, slice_index, length, get_or, find, option_map, sum, sum_by, map};
ghost use Rattle.std.specs.List.{list_any};
ghost use Rattle.std.specs.Str.{bytes_eq};
ghost use Rattle.sl_law_meaning.specs.declared.book.Stage.{Stage};
ghost use Rattle.sl_law_meaning.specs.book.Books.{book_of};
ghost use Rattle.sl_law_meaning.specs.book.Trees.{ExprTree, tree_of};
ghost use Rattle.sl_law_meaning.specs.declared.book.Axis.TheVariants as axis;
ghost use Rattle.sl_law_meaning.specs.book.Typing.{is_named, shape_over, splits_in, type_or_one};
ghost use Rattle.sl_law_meaning.specs.returns.Election.{lands_of, parties_of};
ghost use Rattle.sl_law_meaning.specs.returns.Facts.{lands, parties, list_cell};
ghost use Rattle.sl_law_meaning.specs.meaning.Columns.{is_column_of, sum_over, paired, pair_of};
ghost use Rattle.sl_report_parties.specs.Sums.{capped};
ghost use Rattle.sl_report_results.specs.Values.{named_columns, types_before, HaveTypes, HasNoSplit, IsWellFormed, IsColumnOf, IsPlain, IsWith, IsDistributed};

use sl_base_quotients::{Method, NoMemory};
use sl_report_parties::Setting;
use sl_stages::{Axis, Column, Expr, Pairing, Returns, Stage, Word};
use std::alloc::Global;

/// What a split or a growth distributes: seats by votes, with minima where it has them.
#[derive(Drop)]
pub struct Distribution {
    pub seats: Column,
    pub votes: Column,
    pub minima: Option<Column>,
    pub method: Method,
    pub grows: bool,
}

/// The number at a place of a column, 0 past the end.
pub(crate) fn number_at(column: &Column, place: usize) -> u64
    ensures { result ≡ slice_index column.now.cells.items place }
{
    column.cells.get(place).copied().unwrap_or(0)
}

// The same column once more.
fn copy_of(alloc: Global, column: &Column) -> Result<Column, NoMemory>
    ensures cells { IfOk result (λ c. c.cells.items ≡ column.now.cells.items) }
    ensures shape { IfOk result (λ c. c.shape ≡ column.now.shape) }
{
    Ok(Column {
        shape: column.shape,
        cells: Vec::from_slice(alloc, column.cells.as_slice())?,
    })
}

/// The place of a pair of Land and party in a column of lists.
pub(crate) fn place_of(returns: &Returns, land: usize, party: usize) -> usize
    ensures { land < lands_of returns.now → party < parties_of returns.now → result ≡ land * parties_of returns.now + party }
{
    land.saturating_mul(returns.parties()).saturating_add(party)
}

// The sum of a party's numbers in a column of lists.
fn party_sum(returns: &Returns, column: &Column, party: usize) -> u64
    requires { party < parties_of returns.now }
    ensures { result ≡ capped (sum_by (λ land. list_cell returns.now column.now.cells.items land party) (lands returns.now)) }
{
    let mut sum = 0u64;
    for land in 0..returns.lands() {
        sum = sum.saturating_add(number_at(column, place_of(returns, land, party)));
    }
    sum
}

// The sum of a Land's numbers in a column of lists.
fn land_sum(returns: &Returns, column: &Column, land: usize) -> u64
    requires { land < lands_of returns.now }
    ensures { result ≡ capped (sum_by (λ party. list_cell returns.now column.now.cells.items land party) (parties returns.now)) }
{
    let mut sum = 0u64;
    for party in 0..returns.parties() {
        sum = sum.saturating_add(number_at(column, place_of(returns, land, party)));
    }
    sum
}

/// The sum of all numbers of a column.
pub fn sum_of(column: &Column) -> u64
    ensures { result ≡ capped (sum column.now.cells.items) }
{
    let mut sum = 0u64;
    for value in &column.cells {
        sum = sum.saturating_add(*value);
    }
    sum
}

// The numbers of a sum over Länder.
fn party_sums(alloc: Global, returns: &Returns, column: &Column) -> Result<Vec<u64>, NoMemory>
    ensures { IfOk result (λ cells. cells.items ≡ map capped (sum_over returns.now axis.Party column.now.cells.items)) }
{
    let mut cells = Vec::new(alloc);
    for party in 0..returns.parties() {
        cells.push(party_sum(returns, column, party))?;
    }
    Ok(cells)
}

// The numbers of a sum over parties.
fn land_sums(alloc: Global, returns: &Returns, column: &Column) -> Result<Vec<u64>, NoMemory>
    ensures { IfOk result (λ cells. cells.items ≡ map capped (sum_over returns.now axis.Land column.now.cells.items)) }
{
    let mut cells = Vec::new(alloc);
    for land in 0..returns.lands() {
        cells.push(land_sum(returns, column, land))?;
    }
    Ok(cells)
}

// The sum of a whole column, as a column of one number.
fn one_sum(alloc: Global, column: &Column) -> Result<Vec<u64>, NoMemory>
    ensures { IfOk result (λ cells. cells.items ≡ capped (sum column.now.cells.items) ∷ []) }
{
    let mut cells = Vec::new(alloc);
    cells.push(sum_of(column))?;
    Ok(cells)
}

// The numbers of a sum.
fn sums(alloc: Global, returns: &Returns, column: &Column, over: Axis) -> Result<Vec<u64>, NoMemory>
    ensures { IfOk result (λ cells. cells.items ≡ map capped (sum_over returns.now over column.now.cells.items)) }
{
    match over {
        Axis::All => one_sum(alloc, column),
        Axis::Party => party_sums(alloc, returns, column),
        Axis::Land => land_sums(alloc, returns, column),
    }
}

// The sum of a column, each number of it at most the greatest one of 64 bits.
fn summed(alloc: Global, returns: &Returns, column: &Column, over: Axis) -> Result<Column, NoMemory>
    ensures cells { IfOk result (λ c. c.cells.items ≡ map capped (sum_over returns.now over column.now.cells.items)) }
    ensures shape { IfOk result (λ c. c.shape ≡ shape_over over) }
{
    let cells = sums(alloc, returns, column, over)?;
    Ok(Column {
        shape: over.shape(),
        cells,
    })
}

// What two numbers make.
fn paired_number(pairing: Pairing, first: u64, second: u64) -> u64
    ensures { result ≡ paired pairing first second }
{
    match pairing {
        Pairing::Larger => first.max(second),
        Pairing::Less => first.saturating_sub(second),
    }
}

// Two columns, number by number.
fn paired(
    alloc: Global,
    pairing: Pairing,
    left: &Column,
    right: &Column,
) -> Result<Column, NoMemory>
    ensures cells { IfOk result (λ c. c.cells.items ≡ pair_of pairing left.now.cells.items right.now.cells.items) }
    ensures shape { IfOk result (λ c. c.shape ≡ left.now.shape) }
{
    let firsts = left.cells.as_slice();
    let seconds = right.cells.as_slice();
    let mut cells = Vec::new(alloc);
    for number in 0..firsts.len().min(seconds.len()) {
        cells.push(paired_number(pairing, firsts[number], seconds[number]))?;
    }
    Ok(Column {
        shape: left.shape,
        cells,
    })
}

// The number of the first stage with a column that has that name.
fn number_of(stages: &[Stage], count: usize, name: &Word) -> Option<usize>
    ensures within { IfSome result (λ n. (n < length stages.now) × (n < count)) }
    ensures first { MatchOption result ((k : ℕ) (d : Stage) → k < length stages.now → k < count → bytes_eq name.now (get_or stages.now k d).name ≡ false) (λ n. (d : Stage) → (bytes_eq name.now (get_or stages.now n d).name ≡ true) × ((k : ℕ) → k < n → bytes_eq name.now (get_or stages.now k d).name ≡ false)) }
{
    for number in 0..stages.len().min(count) {
        if name.as_bytes() == stages[number].name.as_bytes() {
            return Some(number);
        }
    }
    None
}

// The column of an earlier stage.
fn named(
    alloc: Global,
    setting: &Setting<'_>,
    earlier: &[Column],
    name: &Word,
) -> Result<Column, NoMemory>
    requires before { HaveTypes (book_of setting.now.book.now) setting.now.returns.now setting.now.book.now.stages.items earlier.now }
    requires known { list_any (is_named name.now) (types_before (book_of setting.now.book.now) (length earlier.now)) ≡ true }
    ensures values { IfOk result (λ c. option_map (λ s. s.values) (find (is_column_of name.now) (named_columns setting.now.book.now.stages.items earlier.now)) ≡ Some c.cells.items) }
    ensures shape { IfOk result (λ c. c.shape ≡ (type_or_one (find (is_named name.now) (types_before (book_of setting.now.book.now) (length earlier.now)))).shape) }
{
    match number_of(setting.book.stages.as_slice(), earlier.len(), name) {
        Some(number) => copy_of(alloc, &earlier[number]),
        None => unreachable!(),
    }
}

// The column of an expression without splits and growths, by the columns of the stages before.
fn value_of(
    alloc: Global,
    setting: &Setting<'_>,
    earlier: &[Column],
    expr: &Expr,
) -> Result<Column, NoMemory>
    requires before { HaveTypes (book_of setting.now.book.now) setting.now.returns.now setting.now.book.now.stages.items earlier.now }
    requires formed { IsWellFormed (types_before (book_of setting.now.book.now) (length earlier.now)) (tree_of expr.now) }
    requires simple { HasNoSplit (tree_of expr.now) }
    ensures { IfOk result (IsColumnOf (book_of setting.now.book.now) setting.now.returns.now (types_before (book_of setting.now.book.now) (length earlier.now)) (named_columns setting.now.book.now.stages.items earlier.now) (tree_of expr.now)) }
{
    match expr {
        Expr::Fact { fact, .. } => setting.fact(alloc, *fact),
        Expr::Name { name, .. } => named(alloc, setting, earlier, name),
        Expr::Sum { of, over, .. } => {
            let of = value_of(alloc, setting, earlier, of)?;
            summed(alloc, setting.returns, &of, *over)
        }
        Expr::Pair {
            pairing,
            left,
            right,
            ..
        } => {
            let left = value_of(alloc, setting, earlier, left)?;
            let right = value_of(alloc, setting, earlier, right)?;
            paired(alloc, *pairing, &left, &right)
        }
        Expr::Split { .. } | Expr::Grow { .. } => unreachable!(),
    }
}

// What seats and votes without minima distribute.
fn plain_of(
    alloc: Global,
    setting: &Setting<'_>,
    earlier: &[Column],
    seats: &Expr,
    votes: &Expr,
    method: Method,
) -> Result<Distribution, NoMemory>
    requires before { HaveTypes (book_of setting.now.book.now) setting.now.returns.now setting.now.book.now.stages.items earlier.now }
    requires seats_formed { IsWellFormed (types_before (book_of setting.now.book.now) (length earlier.now)) (tree_of seats.now) }
    requires seats_simple { HasNoSplit (tree_of seats.now) }
    requires votes_formed { IsWellFormed (types_before (book_of setting.now.book.now) (length earlier.now)) (tree_of votes.now) }
    requires votes_simple { HasNoSplit (tree_of votes.now) }
    ensures { IfOk result (IsPlain (book_of setting.now.book.now) setting.now.returns.now (types_before (book_of setting.now.book.now) (length earlier.now)) (named_columns setting.now.book.now.stages.items earlier.now) (tree_of seats.now) (tree_of votes.now) method) }
{
    let seats = value_of(alloc, setting, earlier, seats)?;
    let votes = value_of(alloc, setting, earlier, votes)?;
    Ok(Distribution {
        seats,
        votes,
        minima: None,
        method,
        grows: false,
    })
}

// What seats and votes with minima distribute.
fn with_minima(
    alloc: Global,
    setting: &Setting<'_>,
    earlier: &[Column],
    what: Distribution,
    minima: &Expr,
    grows: bool,
) -> Result<Distribution, NoMemory>
    requires before { HaveTypes (book_of setting.now.book.now) setting.now.returns.now setting.now.book.now.stages.items earlier.now }
    requires formed { IsWellFormed (types_before (book_of setting.now.book.now) (length earlier.now)) (tree_of minima.now) }
    requires simple { HasNoSplit (tree_of minima.now) }
    ensures { (s v : ExprTree) (by : Method) → IsPlain (book_of setting.now.book.now) setting.now.returns.now (types_before (book_of setting.now.book.now) (length earlier.now)) (named_columns setting.now.book.now.stages.items earlier.now) s v by what → IfOk result (IsWith (book_of setting.now.book.now) setting.now.returns.now (types_before (book_of setting.now.book.now) (length earlier.now)) (named_columns setting.now.book.now.stages.items earlier.now) s v by (tree_of minima.now) grows) }
{
    let least = value_of(alloc, setting, earlier, minima)?;
    Ok(Distribution {
        seats: what.seats,
        votes: what.votes,
        minima: Some(least),
        method: what.method,
        grows,
    })
}

/// What the split or the growth in an expression distributes, by the columns of the stages before; `None` where it has neither.
pub fn distribution_of(
    alloc: Global,
    setting: &Setting<'_>,
    earlier: &[Column],
    expr: &Expr,
) -> Result<Option<Distribution>, NoMemory>
    requires before { HaveTypes (book_of setting.now.book.now) setting.now.returns.now setting.now.book.now.stages.items earlier.now }
    requires formed { IsWellFormed (types_before (book_of setting.now.book.now) (length earlier.now)) (tree_of expr.now) }
    requires one { splits_in (tree_of expr.now) ≤ 1 }
    ensures { IfOk result (λ o. MatchOption o (HasNoSplit (tree_of expr.now)) (IsDistributed (book_of setting.now.book.now) setting.now.returns.now (types_before (book_of setting.now.book.now) (length earlier.now)) (named_columns setting.now.book.now.stages.items earlier.now) (tree_of expr.now))) }
{
    match expr {
        Expr::Fact { .. } | Expr::Name { .. } => Ok(None),
        Expr::Sum { of, .. } => distribution_of(alloc, setting, earlier, of),
        Expr::Pair { left, right, .. } => match distribution_of(alloc, setting, earlier, left)? {
            Some(found) => Ok(Some(found)),
            None => distribution_of(alloc, setting, earlier, right),
        },
        Expr::Split {
            seats,
            votes,
            method,
            minima,
            ..
        } => {
            let what = plain_of(alloc, setting, earlier, seats, votes, *method)?;
            match minima {
                Some(least) => Ok(Some(with_minima(alloc, setting, earlier, what, least, false)?)),
                None => Ok(Some(what)),
            }
        }
        Expr::Grow {
            seats,
            votes,
            method,
            minima,
            ..
        } => {
            let what = plain_of(alloc, setting, earlier, seats, votes, *method)?;
            Ok(Some(with_minima(alloc, setting, earlier, what, minima, true)?))
        }
    }
}

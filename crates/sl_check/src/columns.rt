//! The columns of earlier stages, and the types of expressions over them.

ghost use Rattle.std.specs.Prelude.{◌≡◌, ◌≤◌, find, option_map, length, ◌++◌};
ghost use Rattle.std.specs.List.{list_any};
ghost use Rattle.sl_law_meaning.specs.book.Typing.{is_named, type_or_one, name_tests, expr_tests, type_of};
ghost use Rattle.sl_law_meaning.specs.book.Trees.{tree_of};
ghost use Rattle.sl_base_terms.specs.Tests.{Judges};
ghost use Rattle.sl_check.specs.inner.Known.{columns};

use crate::nodes::{grow_type, pair_type, split_from_type, split_type, sum_type};
use sl_law_meaning::{CheckFault, ColumnType, Expr, Stage, Word};

/// The stages before some place of a book, and what the column of each has.
#[derive(Clone, Copy)]
pub struct Columns<'a> {
    pub stages: &'a [Stage],
    pub types: &'a [ColumnType],
    ghost paired: { length stages.now ≤ length types.now },
}

impl<'a> Columns<'a> {
    /// The first of these stages, as many as there are types.
    pub fn of(stages: &'a [Stage], types: &'a [ColumnType]) -> Columns<'a>
        ensures { columns result.stages.now result.types.now ≡ columns stages.now types.now }
    {
        let count = stages.len().min(types.len());
        Columns {
            stages: &stages[..count],
            types,
        }
    }

    /// What the column of the stage of that name has.
    pub fn find(&self, name: &Word) -> Option<ColumnType>
        ensures { let known = columns self.now.stages.now self.now.types.now
            in result ≡ option_map (λ c. c.type) (find (is_named name.now) known) }
    {
        for (i, stage) in self.stages.iter().enumerate() {
            if name.as_bytes() == stage.name.as_bytes() {
                return Some(self.types[i]);
            }
        }
        None
    }

    /// Whether a stage has that name.
    #[tactic(auto, using(sl_law_meaning::proofs::typing::TypedExpressions::is_found))]
    pub fn has(&self, name: &Word) -> bool
        ensures { let known = columns self.now.stages.now self.now.types.now
            in result ≡ list_any (is_named name.now) known }
    {
        self.find(name).is_some()
    }

    /// The type of a stage's name at that offset.
    #[tactic(auto, using(crate::proofs::Finding::judges_name))]
    pub fn name_type(&self, at: usize, name: &Word) -> Result<ColumnType, CheckFault>
        ensures { let known = columns self.now.stages.now self.now.types.now
            in Judges result (name_tests known at name.now) (type_or_one (find (is_named name.now) known)) }
    {
        self.find(name).ok_or(CheckFault::StageUnknown(at))
    }

    /// The types of two expressions.
    #[cycle(expr)]
    #[tactic(auto, using(sl_base_terms::proofs::Tests::fails_in_row))]
    fn both(&self, left: &Expr, right: &Expr) -> Result<(ColumnType, ColumnType), CheckFault>
        ensures { let known = columns self.now.stages.now self.now.types.now
            in let l = tree_of left.now
            in let r = tree_of right.now
            in Judges result (expr_tests known l ++ expr_tests known r) (type_of known l, type_of known r) }
    {
        Ok((self.expr_type(left)?, self.expr_type(right)?))
    }

    /// The types of three expressions.
    #[cycle(expr)]
    #[tactic(auto, using(crate::proofs::Failing::fails_behind))]
    fn three(
        &self,
        first: &Expr,
        second: &Expr,
        third: &Expr,
    ) -> Result<(ColumnType, ColumnType, ColumnType), CheckFault>
        ensures { let known = columns self.now.stages.now self.now.types.now
            in let a = tree_of first.now
            in let b = tree_of second.now
            in let c = tree_of third.now
            in Judges result (expr_tests known a ++ (expr_tests known b ++ expr_tests known c)) (type_of known a, type_of known b, type_of known c) }
    {
        let (first, second) = self.both(first, second)?;
        Ok((first, second, self.expr_type(third)?))
    }

    /// The type of an expression.
    #[cycle(expr)]
    #[tactic(auto, using(sl_base_terms::proofs::Tests::fails_in_row, crate::proofs::Failing::fails_behind))]
    pub fn expr_type(&self, expr: &Expr) -> Result<ColumnType, CheckFault>
        ensures { let known = columns self.now.stages.now self.now.types.now
            in Judges result (expr_tests known (tree_of expr.now)) (type_of known (tree_of expr.now)) }
    {
        match expr {
            Expr::Fact { fact, .. } => Ok(fact.column_type()),
            Expr::Name { at, name } => self.name_type(*at, name),
            Expr::Sum { at, of, over } => sum_type(*at, self.expr_type(of)?, *over),
            Expr::Pair {
                at,
                left,
                right,
                ..
            } => {
                let (left, right) = self.both(left, right)?;
                pair_type(*at, left, right)
            }
            Expr::Split {
                at,
                seats,
                votes,
                method,
                minima,
                majority,
            } => match minima {
                None => {
                    let (of, by) = self.both(seats, votes)?;
                    split_type(*at, of, by, *method, *majority)
                }
                Some(minima) => {
                    let (of, by, minima) = self.three(seats, votes, minima)?;
                    split_from_type(*at, of, by, minima, *method, *majority)
                }
            },
            Expr::Grow {
                at,
                seats,
                votes,
                method,
                minima,
                cap,
                majority,
            } => {
                let (of, by, minima) = self.three(seats, votes, minima)?;
                grow_type(*at, of, by, minima, *method, *cap, *majority)
            }
        }
    }
}

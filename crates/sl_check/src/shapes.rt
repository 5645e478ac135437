//! The types of expressions whose tests hold, and the shape of the entries to which a stage distributes seats.

ghost use Rattle.std.specs.Prelude.{◌≡◌, ◌≤◌, [], length, map};
ghost use Rattle.sl_check.specs.Drawn.{given_shape};
ghost use Rattle.sl_check.specs.inner.Known.{columns};
ghost use Rattle.sl_law_meaning.specs.book.Trees.{stage_of, tree_of};
ghost use Rattle.sl_law_meaning.specs.book.Typing.{columns_of, type_of};

use crate::columns::Columns;
use sl_law_meaning::{ColumnType, Expr, MAX_STAGES, Shape, Stage};

impl Columns<'_> {
    /// The type of an expression whose tests hold.
    pub fn type_of(&self, expr: &Expr) -> ColumnType
        ensures { result ≡ type_of (columns self.now.stages.now self.now.types.now) (tree_of expr.now) }
    {
        match expr {
            Expr::Fact { fact, .. } => fact.column_type(),
            Expr::Name { name, .. } => match self.find(name) {
                Some(found) => found,
                None => ColumnType::seats(Shape::One),
            },
            Expr::Sum { of, over, .. } => ColumnType {
                shape: over.shape(),
                unit: self.type_of(of).unit,
            },
            Expr::Pair { left, .. } => self.type_of(left),
            Expr::Split { votes, .. } | Expr::Grow { votes, .. } => {
                ColumnType::seats(self.type_of(votes).shape)
            }
        }
    }

    /// The shape of the entries to which the split or the growth in an expression distributes seats, if it has one.
    pub fn given_shape(&self, expr: &Expr) -> Option<Shape>
        ensures { result ≡ given_shape (columns self.now.stages.now self.now.types.now) (tree_of expr.now) }
    {
        match expr {
            Expr::Fact { .. } | Expr::Name { .. } => None,
            Expr::Sum { of, .. } => self.given_shape(of),
            Expr::Pair { left, right, .. } => match self.given_shape(left) {
                Some(shape) => Some(shape),
                None => self.given_shape(right),
            },
            Expr::Split { votes, .. } | Expr::Grow { votes, .. } => Some(self.type_of(votes).shape),
        }
    }
}

/// The types of the columns of stages whose tests hold, in order; what stands after them is of no stage.
pub fn types_of(stages: &[Stage]) -> [ColumnType; MAX_STAGES]
    requires { length stages.now ≤ MAX_STAGES }
    ensures { columns stages.now result ≡ columns_of [] (map stage_of stages.now) }
{
    let mut types = [ColumnType::seats(Shape::One); MAX_STAGES];
    for (i, stage) in stages.iter().enumerate() {
        let earlier = Columns::of(&stages[..i], &types);
        types[i] = earlier.type_of(&stage.expr);
    }
    types
}

//! How many splits and growths an expression has.

ghost use Rattle.std.specs.Prelude.{◌≡◌, ◌≤◌};
ghost use Rattle.sl_law_meaning.specs.book.Trees.{tree_of};
ghost use Rattle.sl_law_meaning.specs.book.Limits.{parts_of};
ghost use Rattle.sl_law_meaning.specs.book.Typing.{splits_in};

use sl_law_meaning::{Expr, MAX_PARTS};

/// The number of splits and growths in an expression.
pub fn splits_in(expr: &Expr) -> u32
    requires { parts_of (tree_of expr.now) ≤ MAX_PARTS }
    ensures value { result ≡ splits_in (tree_of expr.now) }
    ensures few { result ≤ parts_of (tree_of expr.now) }
{
    match expr {
        Expr::Fact { .. } | Expr::Name { .. } => 0,
        Expr::Sum { of, .. } => splits_in(of),
        Expr::Pair { left, right, .. } => splits_in(left) + splits_in(right),
        Expr::Split {
            seats,
            votes,
            minima,
            ..
        } => {
            let minima = match minima {
                None => 0,
                Some(minima) => splits_in(minima),
            };
            1 + splits_in(seats) + splits_in(votes) + minima
        }
        Expr::Grow {
            seats,
            votes,
            minima,
            ..
        } => 1 + splits_in(seats) + splits_in(votes) + splits_in(minima),
    }
}

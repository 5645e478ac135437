//! The stages that an expression names.

ghost use Rattle.std.specs.List.{list_any};
ghost use Rattle.std.specs.Prelude.{◌≡◌};
ghost use Rattle.std.specs.Str.{bytes_eq};
ghost use Rattle.sl_check.specs.Names.{names_one_of};
ghost use Rattle.sl_law_meaning.specs.book.Trees.{tree_of};

use sl_law_meaning::{Expr, Word};

/// Whether a name is one of these.
pub fn is_one_of(name: &Word, names: &[Word]) -> bool
    ensures { result ≡ list_any (bytes_eq name.now) names.now }
{
    names
        .iter()
        .any(|other| name.as_bytes() == other.as_bytes())
}

/// Whether an expression names one of these stages.
pub fn names_one_of(expr: &Expr, names: &[Word]) -> bool
    ensures { result ≡ names_one_of names.now (tree_of expr.now) }
{
    match expr {
        Expr::Fact { .. } => false,
        Expr::Name { name, .. } => is_one_of(name, names),
        Expr::Sum { of, .. } => names_one_of(of, names),
        Expr::Pair { left, right, .. } => names_one_of(left, names) || names_one_of(right, names),
        Expr::Split {
            seats,
            votes,
            minima,
            ..
        } => {
            let minima = match minima {
                None => false,
                Some(minima) => names_one_of(minima, names),
            };
            names_one_of(seats, names) || names_one_of(votes, names) || minima
        }
        Expr::Grow {
            seats,
            votes,
            minima,
            ..
        } => {
            names_one_of(seats, names) || names_one_of(votes, names) || names_one_of(minima, names)
        }
    }
}

//! A form in an expression, with what its arguments have.

use sl_base_quotients::Method;
use sl_check::Columns;
use sl_law_meaning::{Axis, ColumnType, Expr, Pairing};

/// A split or a growth.
#[derive(Clone, Copy)]
pub struct Division {
    pub grows: bool,
    pub seats: ColumnType,
    pub votes: ColumnType,
    pub minima: Option<ColumnType>,
    pub method: Method,
    /// The offsets of the seats and of the votes.
    pub places: (usize, usize),
}

/// A form whose arguments have types.
#[derive(Clone, Copy)]
pub enum Node {
    Sum {
        of: ColumnType,
        over: Axis,
    },
    Pair {
        pairing: Pairing,
        left: ColumnType,
        right: ColumnType,
        /// Their offsets.
        places: (usize, usize),
    },
    Division(Division),
}

impl Node {
    /// The offsets of its two arguments, if it has two.
    pub fn places(self) -> Option<(usize, usize)> {
        match self {
            Node::Sum { .. } => None,
            Node::Pair { places, .. } => Some(places),
            Node::Division(division) => Some(division.places),
        }
    }
}

// A pair of columns, by its arguments.
fn typed_pair(columns: &Columns<'_>, pairing: Pairing, left: &Expr, right: &Expr) -> Option<Node> {
    Some(Node::Pair {
        pairing,
        left: columns.expr_type(left).ok()?,
        right: columns.expr_type(right).ok()?,
        places: (offset(left), offset(right)),
    })
}

// A split, or with `grows` a growth, by its arguments.
fn typed_division(
    columns: &Columns<'_>,
    grows: bool,
    seats: &Expr,
    votes: &Expr,
    method: Method,
    minima: Option<ColumnType>,
) -> Option<Node> {
    Some(Node::Division(Division {
        grows,
        seats: columns.expr_type(seats).ok()?,
        votes: columns.expr_type(votes).ok()?,
        minima,
        method,
        places: (offset(seats), offset(votes)),
    }))
}

// What the form at the root of an expression is, if it is one and its arguments have types.
fn root(columns: &Columns<'_>, expr: &Expr) -> Option<Node> {
    match expr {
        Expr::Fact { .. } | Expr::Name { .. } => None,
        Expr::Sum { of, over, .. } => Some(Node::Sum {
            of: columns.expr_type(of).ok()?,
            over: *over,
        }),
        Expr::Pair {
            pairing,
            left,
            right,
            ..
        } => typed_pair(columns, *pairing, left, right),
        Expr::Split {
            seats,
            votes,
            method,
            minima,
            ..
        } => {
            let minima = match minima {
                None => None,
                Some(minima) => Some(columns.expr_type(minima).ok()?),
            };
            typed_division(columns, false, seats, votes, *method, minima)
        }
        Expr::Grow {
            seats,
            votes,
            method,
            minima,
            ..
        } => {
            let minima = columns.expr_type(minima).ok()?;
            typed_division(columns, true, seats, votes, *method, Some(minima))
        }
    }
}

fn offset(expr: &Expr) -> usize {
    match expr {
        Expr::Fact { at, .. }
        | Expr::Name { at, .. }
        | Expr::Sum { at, .. }
        | Expr::Pair { at, .. }
        | Expr::Split { at, .. }
        | Expr::Grow { at, .. } => *at,
    }
}

/// The form that begins at an offset.
pub fn node_at(columns: &Columns<'_>, expr: &Expr, at: usize) -> Option<Node> {
    if offset(expr) == at {
        return root(columns, expr);
    }
    match expr {
        Expr::Fact { .. } | Expr::Name { .. } => None,
        Expr::Sum { of, .. } => node_at(columns, of, at),
        Expr::Pair { left, right, .. } => {
            node_at(columns, left, at).or(node_at(columns, right, at))
        }
        Expr::Split {
            seats,
            votes,
            minima,
            ..
        } => {
            let inner = match minima {
                None => None,
                Some(minima) => node_at(columns, minima, at),
            };
            let first = node_at(columns, seats, at).or(node_at(columns, votes, at));
            first.or(inner)
        }
        Expr::Grow {
            seats,
            votes,
            minima,
            ..
        } => {
            let first = node_at(columns, seats, at).or(node_at(columns, votes, at));
            first.or(node_at(columns, minima, at))
        }
    }
}

//! What a node gives, by the types of its arguments.

ghost use Rattle.std.specs.Prelude.{◌≡◌, ◌&&◌, [], ◌∷◌};
ghost use Rattle.sl_base_terms.specs.declared.shape.Shape.TheVariants as shape;
ghost use Rattle.sl_law_meaning.specs.declared.book.Unit.TheVariants as unit;
ghost use Rattle.sl_base_terms.specs.Tests.{test, Judges};
ghost use Rattle.sl_law_meaning.specs.book.Typing.{column, same_unit, shape_over, can_sum, can_split, is_hamilton, is_prefer, is_seat_number, sum_tests, pair_tests, share_from_tests, split_tests, split_from_tests, grow_tests};
ghost use Rattle.sl_base_terms.specs.Shapes.{same_shape};

use sl_base_quotients::Method;
use sl_law_meaning::{Axis, CheckFault, ColumnType, MAX_SEATS, Majority, Number, Shape, Unit};

/// Refuses with a fault what fails a test.
pub fn test(holds: bool, otherwise: CheckFault) -> Result<(), CheckFault>
    ensures { Judges result (test holds otherwise ∷ []) tt }
{
    if holds { Ok(()) } else { Err(otherwise) }
}

/// Whether it is a number of seats: 1 to `MAX_SEATS`.
pub fn is_seat_number(n: u32) -> bool
    ensures { result ≡ is_seat_number n }
{
    1 <= n && n <= MAX_SEATS
}

pub fn same_shape(a: Shape, b: Shape) -> bool
    ensures { result ≡ same_shape a b }
{
    a == b
}

pub fn same_unit(a: Unit, b: Unit) -> bool
    ensures { result ≡ same_unit a b }
{
    a == b
}

fn is_seats(of: ColumnType) -> bool
    ensures { result ≡ same_unit of.unit unit.Seats }
{
    same_unit(of.unit, Unit::Seats)
}

fn is_votes(of: ColumnType) -> bool
    ensures { result ≡ same_unit of.unit unit.Votes }
{
    same_unit(of.unit, Unit::Votes)
}

/// Whether a column of that shape can be summed so.
fn can_sum(shape: Shape, over: Axis) -> bool
    ensures { result ≡ can_sum shape over }
{
    match shape {
        Shape::One => false,
        Shape::Party | Shape::Land => matches!(over, Axis::All),
        Shape::List => true,
    }
}

/// Whether seats of the first shape can be split by votes of the second.
fn can_split(seats: Shape, votes: Shape) -> bool
    ensures { result ≡ can_split seats votes }
{
    match seats {
        Shape::One => !same_shape(votes, Shape::One),
        Shape::Party | Shape::Land => same_shape(votes, Shape::List),
        Shape::List => false,
    }
}

fn is_hamilton(method: Method) -> bool
    ensures { result ≡ is_hamilton method }
{
    matches!(method, Method::Hamilton)
}

fn is_prefer(majority: Majority) -> bool
    ensures { result ≡ is_prefer majority }
{
    matches!(majority, Majority::Prefer)
}

/// The type of a sum.
pub fn sum_type(at: usize, of: ColumnType, over: Axis) -> Result<ColumnType, CheckFault>
    ensures { Judges result (sum_tests at of over) (column (shape_over over) of.unit) }
{
    test(can_sum(of.shape, over), CheckFault::Shape(at))?;
    Ok(ColumnType {
        shape: over.shape(),
        unit: of.unit,
    })
}

/// The type of the greater of two columns, or of their difference.
pub fn pair_type(at: usize, left: ColumnType, right: ColumnType) -> Result<ColumnType, CheckFault>
    ensures { Judges result (pair_tests at left right) left }
{
    test(same_shape(left.shape, right.shape), CheckFault::Shape(at))?;
    test(same_unit(left.unit, right.unit), CheckFault::Unit(at))?;
    Ok(left)
}

/// The type of seats shared out by votes, of which each entry has at least its minimum.
fn share_from_type(
    at: usize,
    of: ColumnType,
    by: ColumnType,
    minima: ColumnType,
) -> Result<ColumnType, CheckFault>
    ensures { Judges result (share_from_tests at of by minima) (column by.shape unit.Seats) }
{
    let shapes = can_split(of.shape, by.shape) && same_shape(minima.shape, by.shape);
    test(shapes, CheckFault::Shape(at))?;
    let units = is_seats(of) && is_votes(by) && is_seats(minima);
    test(units, CheckFault::Unit(at))?;
    Ok(ColumnType::seats(by.shape))
}

/// The type of a split without minima.
pub fn split_type(
    at: usize,
    of: ColumnType,
    by: ColumnType,
    method: Method,
    majority: Majority,
) -> Result<ColumnType, CheckFault>
    ensures { Judges result (split_tests at of by method majority) (column by.shape unit.Seats) }
{
    let option = !is_prefer(majority) || is_hamilton(method);
    test(option, CheckFault::MethodOption(at))?;
    test(can_split(of.shape, by.shape), CheckFault::Shape(at))?;
    test(is_seats(of) && is_votes(by), CheckFault::Unit(at))?;
    Ok(ColumnType::seats(by.shape))
}

/// The type of a split with minima.
pub fn split_from_type(
    at: usize,
    of: ColumnType,
    by: ColumnType,
    minima: ColumnType,
    method: Method,
    majority: Majority,
) -> Result<ColumnType, CheckFault>
    ensures { Judges result (split_from_tests at of by minima method majority) (column by.shape unit.Seats) }
{
    let option = !is_prefer(majority) && !is_hamilton(method);
    test(option, CheckFault::MethodOption(at))?;
    share_from_type(at, of, by, minima)
}

/// The type of a growth.
pub fn grow_type(
    at: usize,
    of: ColumnType,
    by: ColumnType,
    minima: ColumnType,
    method: Method,
    cap: Number,
    majority: Majority,
) -> Result<ColumnType, CheckFault>
    ensures { Judges result (grow_tests at of by minima method cap majority) (column by.shape unit.Seats) }
{
    let option = !is_prefer(majority) && !is_hamilton(method);
    test(option, CheckFault::MethodOption(at))?;
    test(is_seat_number(cap.value), CheckFault::CapRange(cap.at))?;
    test(same_shape(of.shape, Shape::One), CheckFault::Shape(at))?;
    share_from_type(at, of, by, minima)
}

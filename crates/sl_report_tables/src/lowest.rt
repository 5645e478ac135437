//! Fractions in lowest terms.

ghost use Rattle.std.specs.Int.{IsGcd};
ghost use Rattle.std.specs.Prelude.{◌≡◌};
ghost use Rattle.sl_report_tables.specs.Lowest.{lowest_of};

use sl_report_results::Fraction;

// The greatest common divisor of two numbers, as Euclid finds it.
fn common_divisor(first: u128, second: u128) -> u128
    ensures { IsGcd first second result }
{
    let mut greater = first;
    let mut less = second;
    while less > 0 {
        let rest = greater % less;
        greater = less;
        less = rest;
    }
    greater
}

/// The fraction of the same value whose two numbers have no common divisor but 1. One without a denominator stays as it is.
pub(crate) fn lowest(fraction: Fraction) -> Fraction
    ensures { result ≡ lowest_of fraction }
{
    let Fraction { num, den } = fraction;
    if den == 0 {
        return fraction;
    }
    let divisor = common_divisor(num, den);
    Fraction {
        num: num / divisor,
        den: den / divisor,
    }
}

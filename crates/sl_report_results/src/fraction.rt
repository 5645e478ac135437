//! Fractions, and their decimals.

ghost use Rattle.std.specs.Prelude.{◌≡◌, ◌*◌, ◌^◌, ◌≤◌};
ghost use Rattle.sl_report_results.specs.Fractions.{decimal_of, percent, percent_half_up};

use sl_base_quotients::{MAX_NUMERATOR, Ratio};
use sl_law_margins::{Decimal, MAX_PLACES, cut};

/// A fraction, kept as it came and not reduced.
#[derive(Clone, Copy)]
pub struct Fraction {
    pub num: u128,
    pub den: u128,
}

impl Fraction {
    /// So many of so many, in parts of a hundred.
    pub fn percent(part: u64, whole: u64) -> Fraction
        ensures { result ≡ percent part whole }
    {
        Fraction {
            num: u128::from(part) * 100,
            den: u128::from(whole),
        }
    }

    /// So many of so many, in parts of a hundred, and a twentieth more: cut in one place it is that number rounded, a half up.
    pub fn percent_half_up(part: u64, whole: u64) -> Fraction
        ensures { result ≡ percent_half_up part whole }
    {
        Fraction {
            num: u128::from(part) * 2000 + u128::from(whole),
            den: u128::from(whole) * 20,
        }
    }

    /// A weight by a divisor.
    pub fn quotient(weight: u64, divisor: Decimal) -> Fraction
        ensures { result ≡ record { num = weight * 10 ^ divisor.places; den = divisor.digits } }
    {
        Fraction {
            num: u128::from(weight) * 10u128.pow(divisor.places()),
            den: divisor.digits(),
        }
    }

    /// A weight by a quotient as the divisor.
    pub fn by_claim(weight: u64, claim: Ratio) -> Fraction
        ensures { result ≡ record { num = weight * claim.den; den = claim.num } }
    {
        Fraction {
            num: u128::from(weight) * claim.den(),
            den: claim.num(),
        }
    }

    /// A quotient.
    pub fn of_claim(claim: Ratio) -> Fraction
        ensures value { result ≡ record { num = claim.num; den = claim.den } }
        ensures fits { result.num ≤ MAX_NUMERATOR }
    {
        Fraction {
            num: claim.num(),
            den: claim.den(),
        }
    }

    /// The fraction in decimals of so many places, cut and not rounded; `None` without a denominator, or past the range of quotients.
    #[tactic(auto, using(crate::proofs::Cuts::is_cut))]
    pub fn decimal(&self, places: u32) -> Option<Decimal>
        ensures { result ≡ decimal_of self.now places }
    {
        if self.num > MAX_NUMERATOR || self.den == 0 || places > MAX_PLACES {
            return None;
        }
        Some(cut(self.num, self.den, places))
    }
}

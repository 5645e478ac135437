//! The divisor methods as types, each by its quotients.

ghost use Rattle.std.specs.Prelude.{◌≡◌, ℕ, ◌+◌, ◌<◌, ◌≤◌};
ghost use Rattle.sl_base_quotients.specs.declared.method.Divisor.{Divisor};
ghost use Rattle.sl_base_quotients.specs.declared.limits.TheConstants.{MAX_WEIGHT, MAX_SEATS};
ghost use Rattle.sl_base_quotients.specs.Quotient.{Quotient, FitsRatio, Below, quotient};
ghost use Rattle.sl_base_quotients.specs.inner.QuotientLaws.{quotient_fits, quotient_falls, quotient_rises};

use crate::method::Divisor;
use crate::ratio::Ratio;

/// A divisor method by its quotients: those of a weight of `v` votes for the next seat of an entry that holds `a` seats.
pub trait Signpost {
    ghost quotient_of: { ℕ → ℕ → Quotient };

    /// The numerator of the quotient.
    fn num(v: u64, a: u32) -> u128
        requires positive { 1 ≤ v }
        requires weight { v ≤ MAX_WEIGHT }
        requires held { a ≤ MAX_SEATS }
        ensures { result ≡ (quotient_of v a).num };

    /// The denominator of the quotient, 0 where it is infinite.
    fn den(v: u64, a: u32) -> u128
        requires positive { 1 ≤ v }
        requires weight { v ≤ MAX_WEIGHT }
        requires held { a ≤ MAX_SEATS }
        ensures { result ≡ (quotient_of v a).den };

    /// Both parts are in a ratio's range.
    ghost fits: { (v a : ℕ) → 1 ≤ v → v ≤ MAX_WEIGHT → a ≤ MAX_SEATS → FitsRatio (quotient_of v a) };

    /// The quotient falls strictly with the seats held.
    ghost falls: { (v a : ℕ) → 1 ≤ v → v ≤ MAX_WEIGHT → a < MAX_SEATS → Below (quotient_of v (a + 1)) (quotient_of v a) };

    /// The quotient rises strictly with the weight, unless it is infinite.
    ghost rises: { (v w a : ℕ) → 1 ≤ v → v < w → w ≤ MAX_WEIGHT → a ≤ MAX_SEATS → 0 < (quotient_of v a).den → Below (quotient_of v a) (quotient_of w a) };
}

/// The method of Adams, by rounding up.
#[derive(Clone, Copy)]
pub struct Adams;

/// The method of Dean, by the harmonic mean.
#[derive(Clone, Copy)]
pub struct Dean;

/// The method of Hill, by the geometric mean. The quotient is squared, so that it is one of whole numbers.
#[derive(Clone, Copy)]
pub struct Hill;

/// The method of Webster, by standard rounding.
#[derive(Clone, Copy)]
pub struct Webster;

/// The method of Jefferson, by rounding down, which is that of d'Hondt.
#[derive(Clone, Copy)]
pub struct Jefferson;

impl Signpost for Adams {
    ghost quotient_of = { quotient Divisor.Adams };

    ghost fits = { quotient_fits Divisor.Adams };

    ghost falls = { λ v a positive _ _. quotient_falls Divisor.Adams v a positive };

    ghost rises = { λ v w a positive more _ _. quotient_rises Divisor.Adams v w a more };

    fn num(v: u64, _a: u32) -> u128 {
        v as u128
    }

    fn den(_v: u64, a: u32) -> u128 {
        a as u128
    }
}

impl Signpost for Dean {
    ghost quotient_of = { quotient Divisor.Dean };

    ghost fits = { quotient_fits Divisor.Dean };

    ghost falls = { λ v a positive _ _. quotient_falls Divisor.Dean v a positive };

    ghost rises = { λ v w a positive more _ _. quotient_rises Divisor.Dean v w a more };

    fn num(v: u64, a: u32) -> u128 {
        let held = a as u128;
        v as u128 * (2 * held + 1)
    }

    fn den(_v: u64, a: u32) -> u128 {
        let held = a as u128;
        2 * held * (held + 1)
    }
}

impl Signpost for Hill {
    ghost quotient_of = { quotient Divisor.Hill };

    ghost fits = { quotient_fits Divisor.Hill };

    ghost falls = { λ v a positive _ _. quotient_falls Divisor.Hill v a positive };

    ghost rises = { λ v w a positive more _ _. quotient_rises Divisor.Hill v w a more };

    fn num(v: u64, _a: u32) -> u128 {
        v as u128 * v as u128
    }

    fn den(_v: u64, a: u32) -> u128 {
        let held = a as u128;
        held * (held + 1)
    }
}

impl Signpost for Webster {
    ghost quotient_of = { quotient Divisor.Webster };

    ghost fits = { quotient_fits Divisor.Webster };

    ghost falls = { λ v a positive _ _. quotient_falls Divisor.Webster v a positive };

    ghost rises = { λ v w a positive more _ _. quotient_rises Divisor.Webster v w a more };

    fn num(v: u64, _a: u32) -> u128 {
        2 * v as u128
    }

    fn den(_v: u64, a: u32) -> u128 {
        2 * a as u128 + 1
    }
}

impl Signpost for Jefferson {
    ghost quotient_of = { quotient Divisor.Jefferson };

    ghost fits = { quotient_fits Divisor.Jefferson };

    ghost falls = { λ v a positive _ _. quotient_falls Divisor.Jefferson v a positive };

    ghost rises = { λ v w a positive more _ _. quotient_rises Divisor.Jefferson v w a more };

    fn num(v: u64, _a: u32) -> u128 {
        v as u128
    }

    fn den(_v: u64, a: u32) -> u128 {
        a as u128 + 1
    }
}

// The quotient of a weight of `v` votes for the next seat of an entry that holds `a` seats.
fn ratio_of<S: Signpost>(v: u64, a: u32) -> Ratio
    requires positive { 1 ≤ v }
    requires weight { v ≤ MAX_WEIGHT }
    requires held { a ≤ MAX_SEATS }
    ensures { result ≡ S.quotient_of v a }
{
    Ratio::new(S::num(v, a), S::den(v, a))
}

impl Divisor {
    /// The quotient of a weight of `v` votes for the next seat of an entry that holds `a` seats.
    pub fn ratio(self, v: u64, a: u32) -> Ratio
        requires positive { 1 ≤ v }
        requires weight { v ≤ MAX_WEIGHT }
        requires held { a ≤ MAX_SEATS }
        ensures { result ≡ quotient self v a }
    {
        match self {
            Divisor::Adams => ratio_of::<Adams>(v, a),
            Divisor::Dean => ratio_of::<Dean>(v, a),
            Divisor::Hill => ratio_of::<Hill>(v, a),
            Divisor::Webster => ratio_of::<Webster>(v, a),
            Divisor::Jefferson => ratio_of::<Jefferson>(v, a),
        }
    }
}

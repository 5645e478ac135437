//! A quotient: the ratio of two whole numbers, infinite where the denominator is 0.

ghost use Rattle.std.specs.Prelude.{◌≡◌, ◌*◌, ◌^◌, ◌<◌, ◌≤◌, ◌↔◌, IsTrue};
ghost use Rattle.sl_base_quotients.specs.Quotient.{FitsRatio, compare};
ghost use Rattle.sl_base_quotients.specs.inner.Kept.{whole_part};

use std::cmp::Ordering;
use std::marker::Model;

/// The greatest numerator of a ratio.
pub const MAX_NUMERATOR: u128 = 10_000_000_000_000_000_000_000_000;

/// The greatest denominator of a ratio.
pub const MAX_DENOMINATOR: u128 = 1_000_000_000_000;

// The greatest whole part that a ratio tells apart from smaller ones.
const MAX_WHOLE_PART: u32 = u32::MAX;

// How many values a word has: 2^64.
const WORD: u128 = 1 << 64;

/// A quotient of votes by a divisor. It is kept as it came, not reduced: 60/3 and 20/1 are equal quotients and two ratios.
///
/// `==` compares the ratios, and `cmp` the quotients.
#[derive(Clone, Copy, PartialEq, Eq, Hash)]
pub struct Ratio {
    // The numerator as two words: with a `u128`, which lies at a multiple of 16 bytes, an entry would take 48 bytes in place of 32.
    high: u32,
    // the whole part of the quotient, so that whoever compares mostly needs no products
    whole: u32,
    low: u64,
    den: u64,
}

impl Model for Ratio {
    ghost use Rattle.sl_base_quotients.specs.Quotient.{Quotient};
    ghost use Rattle.sl_base_quotients.specs.inner.Kept.{quotient_in, kept_as, FitsWords, kept_again};

    ghost Value = { Quotient };

    ghost view = { quotient_in };

    ghost invariant = { FitsWords };

    ghost inverse = { kept_as };

    ghost inverse_ok = { kept_again };
}

// The whole part of the quotient of two numbers.
fn whole_part(num: u128, den: u128) -> u32
    requires { den ≤ MAX_DENOMINATOR }
    ensures { result ≡ whole_part (record { num = num; den = den }) }
{
    if den == 0 {
        MAX_WHOLE_PART
    } else if num < WORD {
        (num as u64 / den as u64).min(u64::from(MAX_WHOLE_PART)) as u32
    } else {
        wide_whole_part(num, den)
    }
}

// The same, where the numerator takes more than a word, as a square of votes may. It stands apart, so that the other case is short.
#[cold]
#[inline(never)]
fn wide_whole_part(num: u128, den: u128) -> u32
    requires { 0 < den }
    ensures { result ≡ whole_part (record { num = num; den = den }) }
{
    (num / den).min(u128::from(MAX_WHOLE_PART)) as u32
}

impl Ratio {
    /// The ratio of `num` to `den`, which is infinite where `den` is 0.
    pub fn new(num: u128, den: u128) -> Ratio
        requires positive { 1 ≤ num }
        requires num { num ≤ MAX_NUMERATOR }
        requires den { den ≤ MAX_DENOMINATOR }
        ensures value { result ≡ record { num = num; den = den } }
    {
        Ratio {
            high: (num / WORD) as u32,
            whole: whole_part(num, den),
            low: (num % WORD) as u64,
            den: den as u64,
        }
    }

    /// The numerator.
    pub fn num(&self) -> u128
        ensures value { result ≡ self.now.num }
        ensures fits { FitsRatio self.now }
    {
        u128::from(self.high) * WORD + u128::from(self.low)
    }

    /// The denominator, 0 where the quotient is infinite.
    pub fn den(&self) -> u128
        ensures value { result ≡ self.now.den }
        ensures fits { FitsRatio self.now }
    {
        u128::from(self.den)
    }

    /// The whole part of the quotient, at most 2^32 - 1, as that of an infinite quotient is. Of two quotients the one with the greater
    /// whole part is the greater.
    pub fn whole(&self) -> u32
        ensures value { result ≡ whole_part self.now }
        ensures fits { FitsRatio self.now }
    {
        self.whole
    }

    /// Whether the quotient is infinite.
    pub fn is_infinite(&self) -> bool
        ensures { IsTrue result ↔ (self.now.den ≡ 0) }
    {
        self.den == 0
    }

    /// The order of the two quotients. Equal quotients may have different parts, so this is no `Ord`.
    pub fn cmp(&self, other: &Ratio) -> Ordering
        ensures { result ≡ compare self.now other.now }
    {
        let across = self.num() * u128::from(other.den);
        let back = other.num() * u128::from(self.den);
        across.cmp(&back)
    }
}

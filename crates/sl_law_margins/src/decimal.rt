//! Decimal numbers, and quotients in decimals.

ghost use Rattle.std.specs.Prelude.{◌≡◌, ◌^◌, ◌<◌, ◌≤◌, IfOk, string_bytes};
ghost use Rattle.sl_base_quotients.specs.Quotient.{SameQuotient};
ghost use Rattle.sl_law_margins.specs.Decimals.{IsCut, number_text, value_of};

use sl_base_quotients::{MAX_NUMERATOR, NoMemory};
use std::alloc::Global;
use std::marker::Model;

/// The most places after the point that a decimal number has here.
pub const MAX_PLACES: u32 = 12;

/// A decimal number: `digits / 10 ^ places`, with so many places after the point.
#[derive(Clone, Copy)]
pub struct Decimal {
    digits: u128,
    places: u32,
}

impl Model for Decimal {
    ghost use Rattle.std.specs.Prelude.{◌≤◌};
    ghost use Rattle.sl_law_margins.specs.Decimals.{Number, max_places};

    ghost Value = { Number };

    ghost view = { λ d. record { digits = d.digits; places = d.places } };

    ghost invariant = { λ d. d.places ≤ max_places };

    ghost inverse = { λ n. record { digits = n.digits; places = n.places } };
}

impl Decimal {
    /// Its digits as one whole number.
    pub fn digits(&self) -> u128
        ensures { result ≡ self.now.digits }
    {
        self.digits
    }

    /// How many of them stand after the point.
    pub fn places(&self) -> u32
        ensures value { result ≡ self.now.places }
        ensures most { result ≤ MAX_PLACES }
    {
        self.places
    }

    /// Its text: the whole part, and with any places a point and that many digits.
    pub fn text(&self, alloc: Global) -> Result<String, NoMemory>
        ensures { IfOk result (λ t. string_bytes t ≡ number_text self.now) }
    {
        if self.places == 0 {
            let digits = self.digits;
            return Ok(format!(in alloc; "{digits}")?);
        }
        let unit = power_of_ten(self.places);
        let whole = self.digits / unit;
        let rest = (self.digits % unit).to_string(alloc)?;
        let left = (self.places as usize).saturating_sub(rest.len());
        let zeros = "0".repeat(alloc, left)?;
        Ok(format!(in alloc; "{whole}.{zeros}{rest}")?)
    }
}

// Ten to the power of a number of places.
fn power_of_ten(places: u32) -> u128
    requires { places ≤ MAX_PLACES }
    ensures value { result ≡ 10 ^ places }
    ensures positive { 0 < result }
    ensures most { result ≤ 10 ^ 12 }
{
    10u128.pow(places)
}

/// The quotient `num / den` in decimals, cut: the greatest decimal number of so many places that is not above it.
pub fn cut(num: u128, den: u128, places: u32) -> Decimal
    requires num { num ≤ MAX_NUMERATOR }
    requires den { 0 < den }
    requires places { places ≤ MAX_PLACES }
    ensures { IsCut (record { num = num; den = den }) places result }
{
    Decimal {
        digits: num * power_of_ten(places) / den,
        places,
    }
}

// So many units of `10 ^ -places`, without places that end in 0.
pub(crate) fn shortened(units: u128, places: u32) -> Decimal
    requires { places ≤ MAX_PLACES }
    ensures { SameQuotient (value_of result) (value_of (record { digits = units; places = places })) }
{
    let mut digits = units;
    let mut left = places;
    while left > 0 && digits % 10 == 0 {
        digits /= 10;
        left -= 1;
    }
    Decimal {
        digits,
        places: left,
    }
}

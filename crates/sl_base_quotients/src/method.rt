//! The methods of apportionment.

ghost use Rattle.std.specs.Prelude.{◌≡◌};
ghost use Rattle.sl_base_quotients.specs.Quotient.{method_number, is_rounding};

/// A divisor method, named after the one who proposed it (Balinski and Young, Fair Representation).
#[derive(Clone, Copy, PartialEq, Eq)]
pub enum Divisor {
    Adams,
    Dean,
    Hill,
    Webster,
    Jefferson,
}

/// The divisor methods, in the order of their numbers.
pub const DIVISORS: [Divisor; 5] = [
    Divisor::Adams,
    Divisor::Dean,
    Divisor::Hill,
    Divisor::Webster,
    Divisor::Jefferson,
];

impl Divisor {
    /// Its number, from 0.
    pub fn number(self) -> u8
        ensures { result ≡ method_number self }
    {
        self as u8
    }

    /// Whether it rounds a weight by a divisor: up, to the nearest number, or down.
    pub fn is_rounding(self) -> bool
        ensures { result ≡ is_rounding self }
    {
        matches!(self, Divisor::Adams | Divisor::Webster | Divisor::Jefferson)
    }
}

/// A method that distributes the seats of a scope: by divisors, or by largest remainders.
#[derive(Clone, Copy)]
pub enum Method {
    Divisor(Divisor),
    Hamilton,
}

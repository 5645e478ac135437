//! Whole parts and remainders, for the method of largest remainders.

ghost use Rattle.std.specs.Prelude.{◌≡◌, ◌+◌, ◌*◌, ◌<◌, ◌≤◌};

use sl_base_quotients::MAX_SEATS;

/// The whole part and the remainder of an entry's share of `s` seats, with `v` of `total` votes (Hamilton's method; Balinski and
/// Young, Fair Representation).
pub fn hare(s: u32, v: u64, total: u64) -> (u32, u64)
    requires votes { 0 < total }
    requires part { v ≤ total }
    requires seats { s ≤ MAX_SEATS }
    ensures share { s * v ≡ result.0 * total + result.1 }
    ensures rest { result.1 < total }
    ensures whole { result.0 ≤ s }
{
    let product = s as u128 * v as u128;
    let divisor = total as u128;
    ((product / divisor) as u32, (product % divisor) as u64)
}

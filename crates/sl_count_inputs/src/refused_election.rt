//! Refused returns, with what was read of them.

use crate::refusal::ReturnsRefusal;
use sl_returns::RefusedReturns;

/// Refused returns: why they are refused, and what was read of them until then.
#[derive(Drop)]
pub enum RefusedElection {
    /// They have too many bytes.
    TooLong,
    /// The records have a fault.
    Records(RefusedReturns),
}

impl RefusedElection {
    ghost use Rattle.std.specs.Prelude.{◌≡◌};
    ghost use Rattle.sl_count_inputs.specs.Judging.{returns_refusal_of};

    /// Why they are refused.
    pub fn why(&self) -> ReturnsRefusal
        ensures { result ≡ returns_refusal_of self.now }
    {
        match self {
            RefusedElection::TooLong => ReturnsRefusal::TooLong,
            RefusedElection::Records(refused) => ReturnsRefusal::Records(refused.fault),
        }
    }
}

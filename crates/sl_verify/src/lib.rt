//! The verifier of counting code: it accepts just the codes that are well kinded, and says what is wrong with any other.
//!
//! Stands on `sl_code_semantics`; used by the room count. Proved: accepted are just the codes that are well kinded.
#![tactic(auto)]

mod known;
pub mod laws;
mod leaves;
mod needs;
mod pass;
mod verifier;

pub use sl_code_semantics::{REGISTERS, Verified, VerifyFault};
pub use verifier::verify;

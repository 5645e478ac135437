//! Inputs that are judged.

/// What an input comes to: something good, or why it is refused.
#[derive(Drop)]
pub enum Verdict<T, R> {
    Good(T),
    Refused(R),
}

//! What whole number a lexeme stands for.

/// The whole number that a lexeme stands for, or why there is none.
#[derive(Clone, Copy, Debug, PartialEq, Eq)]
pub enum Whole {
    Fits(i128),
    /// A whole number beyond `i128`.
    TooBig,
    /// No whole number.
    Fraction,
}

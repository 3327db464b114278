//! What a token begins.
use crate::expression::{Binary, Pick, Sign};

/// The operand that a token begins.
#[derive(Clone, Copy, Drop)]
pub enum Opening {
    /// A sign, before an operand.
    Sign(Sign),
    /// `(`, before a cast or an expression.
    Bracket,
    Number,
    /// The name of a word or an array.
    Name,
    /// `in`.
    Input,
    /// `min` or `max`.
    Pick(Pick),
    /// None.
    Nothing,
}

/// The statement that a token begins.
#[derive(Clone, Copy, Drop)]
pub enum Beginning {
    /// `{`.
    Block,
    /// `if`.
    If,
    /// `out`.
    Output,
    /// The name of what is assigned.
    Name,
    /// None.
    Nothing,
}

/// What an assignment does.
#[derive(Clone, Copy, Drop)]
pub enum Change {
    /// `++` or `--`: adds or subtracts 1.
    Step(Binary),
    /// `=`, or an operator with it.
    Set(Option<Binary>),
}

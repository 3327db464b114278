//! Statements and loops.
use crate::expression::{Binary, Element, Expr, Named};

/// How a word is read.
#[derive(Clone, Copy, Debug, PartialEq, Eq, Drop)]
pub enum Signedness {
    /// `int` or `int32_t`.
    Signed,
    /// `uint32_t`.
    Unsigned,
}

/// The declaration of a word, with its first value.
#[derive(Drop)]
pub struct Word {
    pub name: Named,
    pub value: Expr,
}

/// A statement.
#[derive(Drop)]
pub enum Stmt {
    /// Declares words that are read alike, at least one.
    Words {
        signedness: Signedness,
        words: Vec<Word>,
    },
    /// Statements in braces.
    Block {
        stmts: Vec<Stmt>,
    },
    /// `if`, with `else` or without.
    If {
        condition: Expr,
        chosen: Box<Stmt>,
        other: Option<Box<Stmt>>,
    },
    /// `out`: appends a value to the stream of a port.
    Output {
        port: Expr,
        value: Expr,
    },
    /// Sets a word or an element, to the value or, with an operator, to what the operator makes of the old word and the
    /// value. `x++` is written like `x += 1`, with the 1 at the place of `x`, and `x--` like `x -= 1`.
    Assign {
        target: Element,
        op: Option<Binary>,
        value: Expr,
    },
}

/// Statements before a loop, the loop, and statements after it; or statements alone.
#[cycle(nest)]
#[derive(Drop)]
pub struct Nest {
    pub before: Vec<Stmt>,
    pub inner: Option<Box<Loop>>,
    pub after: Vec<Stmt>,
}

/// A `for`.
#[cycle(nest)]
#[derive(Drop)]
pub struct Loop {
    /// The position of the `for`.
    pub place: usize,
    pub counter: Named,
    pub start: Expr,
    /// Whether the bound is the last value that the counter may have, as `<=` says, and not the first that it may not.
    pub inclusive: bool,
    pub bound: Expr,
    /// The step; `None` for `++`.
    pub step: Option<Expr>,
    pub body: Nest,
}

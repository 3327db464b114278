//! Sources.
use crate::expression::{Expr, Named};
use crate::statement::{Loop, Signedness, Stmt};

/// The declaration of a constant.
#[derive(Drop)]
pub struct Constant {
    pub name: Named,
    pub value: Expr,
}

/// The declaration of an array, with one to three dimensions.
#[derive(Drop)]
pub struct Array {
    pub name: Named,
    pub dimensions: Vec<Expr>,
}

/// The words of a table in braces.
#[derive(Drop)]
pub enum Rows {
    /// The values of the last dimension, and the position of their `{`.
    Values { place: usize, values: Vec<Expr> },
    /// The rows of a dimension before it, and the position of their `{`.
    Rows { place: usize, rows: Vec<Rows> },
}

/// The declaration of a table.
#[derive(Drop)]
pub struct Table {
    pub signedness: Signedness,
    pub array: Array,
    pub rows: Rows,
}

/// A declaration before the function.
#[derive(Drop)]
pub enum Global {
    /// `#define` of a number. A number after `-` is under a minus sign at its own place.
    Define(Constant),
    /// `enum`.
    Enumeration(Vec<Constant>),
    /// Arrays of words that are read alike.
    Arrays {
        signedness: Signedness,
        arrays: Vec<Array>,
    },
    Table(Table),
}

/// A source: its declarations, the name of the function, and the body of the function with its loop.
#[derive(Drop)]
pub struct Source {
    pub globals: Vec<Global>,
    pub name: Named,
    pub before: Vec<Stmt>,
    pub outer: Loop,
    pub after: Vec<Stmt>,
}

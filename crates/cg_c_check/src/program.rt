//! Typed programs.
use cg_c_syntax::{Binary, Cast, Name, Pick, Sign, Signedness};
use cg_model::Words;

/// A word that is known, and how it is read.
#[derive(Clone, Copy, Debug, PartialEq, Eq, Drop)]
pub struct Constant {
    pub word: u32,
    pub signedness: Signedness,
}

/// An array at its first address; a table has the words that it always has.
#[derive(Drop)]
pub struct Array {
    pub name: Name,
    pub dimensions: Words,
    pub start: u32,
    pub table: Option<Words>,
}

/// The words of a counter: `trips` of them, from `first` on, each by `step` greater than the one before.
#[derive(Clone, Copy, Debug, PartialEq, Eq, Drop)]
pub struct Range {
    pub first: u32,
    pub step: u32,
    pub trips: u32,
}

/// An element of the array of this number, with as many indices as the array has dimensions; `place` is that of its name
/// in the text.
#[cycle(typed)]
#[derive(Drop)]
pub struct Element {
    pub array: usize,
    pub place: usize,
    pub signedness: Signedness,
    pub indices: Vec<Expr>,
}

/// An operator, how it reads its operands, and the operand after it.
#[cycle(typed)]
#[derive(Drop)]
pub struct Link {
    pub op: Binary,
    pub reading: Signedness,
    pub operand: Expr,
}

/// An expression. A sign and a choice have the signedness of their value.
#[cycle(typed)]
#[derive(Drop)]
pub enum Expr {
    Literal(Constant),
    /// A word by its number in the order of declaration.
    Word {
        number: usize,
        signedness: Signedness,
    },
    /// The counter of the loop that this number of loops is around.
    Counter(u32),
    Element(Element),
    Sign {
        sign: Sign,
        signedness: Signedness,
        operand: Box<Expr>,
    },
    Cast {
        to: Cast,
        operand: Box<Expr>,
    },
    /// `in`.
    Input(u32),
    /// `min` or `max`.
    Pick {
        pick: Pick,
        first: Box<Expr>,
        second: Box<Expr>,
    },
    /// Operands joined by operators from left to right.
    Chain {
        first: Box<Expr>,
        rest: Vec<Link>,
    },
    /// `condition ? chosen : other`.
    Choice {
        signedness: Signedness,
        condition: Box<Expr>,
        chosen: Box<Expr>,
        other: Box<Expr>,
    },
}

/// What is assigned.
#[derive(Drop)]
pub enum Target {
    Word {
        number: usize,
        signedness: Signedness,
    },
    Element(Element),
}

/// A word by its number, and its first value.
#[derive(Drop)]
pub struct Initial {
    pub number: usize,
    pub value: Expr,
}

/// A statement.
#[derive(Drop)]
pub enum Stmt {
    /// Declares words.
    Words(Vec<Initial>),
    /// Statements in braces.
    Block {
        stmts: Vec<Stmt>,
    },
    If {
        condition: Expr,
        chosen: Box<Stmt>,
        other: Option<Box<Stmt>>,
    },
    /// Appends a value to the stream of a port.
    Output {
        port: u32,
        value: Expr,
    },
    /// Sets a word or an element, to the value or, with an operator, to what the operator makes of the old word and the
    /// value.
    Assign {
        target: Target,
        op: Option<Binary>,
        value: Expr,
    },
}

/// A loop, and the statements before it and after it.
#[derive(Drop)]
pub struct Level {
    pub before: Vec<Stmt>,
    pub range: Range,
    pub after: Vec<Stmt>,
}

/// A program: its loops from the outermost to the innermost, each inside the one before it, and the statements of the
/// innermost.
#[derive(Drop)]
pub struct Program {
    pub name: Name,
    pub arrays: Vec<Array>,
    /// How each word is read, by its number.
    pub words: Vec<Signedness>,
    pub levels: Vec<Level>,
    pub body: Vec<Stmt>,
}

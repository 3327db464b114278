//! Expressions.
use cg_model::Name;

/// A name, and the position of its first byte.
#[derive(Drop)]
pub struct Named {
    pub name: Name,
    pub place: usize,
}

/// A number.
#[derive(Clone, Copy, Drop)]
pub struct Number {
    /// Its value; 2^32 stands for each value from 2^32 on.
    pub value: u64,
    /// Whether it is written in hexadecimal digits.
    pub hexadecimal: bool,
    /// Whether it ends in `u` or `U`.
    pub unsigned: bool,
    /// The position of its first byte.
    pub place: usize,
}

/// A sign before an operand.
#[derive(Clone, Copy, Debug, PartialEq, Eq, Drop)]
pub enum Sign {
    Minus,
    Complement,
    Not,
    Plus,
}

/// An operator between two operands.
#[derive(Clone, Copy, Debug, PartialEq, Eq, Drop)]
pub enum Binary {
    OrElse,
    AndThen,
    Or,
    Xor,
    And,
    Equal,
    Unequal,
    Less,
    AtMost,
    Greater,
    AtLeast,
    ShiftLeft,
    ShiftRight,
    Add,
    Sub,
    Mul,
}

/// The type of a cast.
#[derive(Clone, Copy, Debug, PartialEq, Eq, Drop)]
pub enum Cast {
    /// `int` or `int32_t`.
    Signed,
    /// `uint32_t`.
    Unsigned,
    /// `int8_t`.
    SignedByte,
    /// `int16_t`.
    SignedHalf,
    /// `uint8_t`.
    UnsignedByte,
    /// `uint16_t`.
    UnsignedHalf,
}

/// A function of two operands.
#[derive(Clone, Copy, Debug, PartialEq, Eq, Drop)]
pub enum Pick {
    Min,
    Max,
}

/// A word by its name, or with one to three indices an element of an array.
#[cycle(expression)]
#[derive(Drop)]
pub struct Element {
    pub name: Named,
    pub indices: Vec<Expr>,
}

/// An operator, the position of its first byte, and the operand after it.
#[cycle(expression)]
#[derive(Drop)]
pub struct Link {
    pub op: Binary,
    pub place: usize,
    pub operand: Expr,
}

/// An expression; round brackets around one leave no trace. A place is the position of the first byte of the operator,
/// or of the first token where there is no operator.
#[cycle(expression)]
#[derive(Drop)]
pub enum Expr {
    Number(Number),
    Element(Element),
    Sign {
        sign: Sign,
        place: usize,
        operand: Box<Expr>,
    },
    Cast {
        to: Cast,
        place: usize,
        operand: Box<Expr>,
    },
    /// `in`.
    Input {
        place: usize,
        port: Box<Expr>,
    },
    /// `min` or `max`.
    Pick {
        pick: Pick,
        place: usize,
        first: Box<Expr>,
        second: Box<Expr>,
    },
    /// Operands joined by operators that bind alike, at least one, from left to right.
    Chain {
        first: Box<Expr>,
        rest: Vec<Link>,
    },
    /// `condition ? chosen : other`, at the `?`.
    Choice {
        place: usize,
        condition: Box<Expr>,
        chosen: Box<Expr>,
        other: Box<Expr>,
    },
}

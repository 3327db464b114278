//! Expressions.
use cg_model::Name;
use cg_word::Op;

/// An expression: a sum, or two sums compared.
#[cycle(syntax)]
#[derive(Drop)]
pub struct Expr {
    pub first: Sum,
    pub compare: Option<Compare>,
}

/// A comparison with a second sum.
#[cycle(syntax)]
#[derive(Drop)]
pub struct Compare {
    /// `Op::Eq` for `==`, or `Op::Lts` for `<`.
    pub op: Op,
    pub second: Sum,
}

/// A product, followed by products that are added or subtracted from left to right.
#[cycle(syntax)]
#[derive(Drop)]
pub struct Sum {
    pub first: Prod,
    pub rest: Vec<Term>,
}

/// A further product of a sum.
#[cycle(syntax)]
#[derive(Drop)]
pub struct Term {
    /// `Op::Add` for `+`, or `Op::Sub` for `-`.
    pub op: Op,
    pub prod: Prod,
}

/// Atoms that are multiplied from left to right, at least one.
#[cycle(syntax)]
#[derive(Drop)]
pub struct Prod {
    pub atoms: Vec<Atom>,
}

/// An operand of the operators.
#[cycle(syntax)]
#[derive(Drop)]
pub enum Atom {
    /// A word.
    Num(u32),
    /// The number of the iteration.
    Turn,
    /// The word of this iteration in the input stream of the given port.
    Input(u32),
    /// The word of a carry or of a `let`.
    Scalar(Name),
    /// A word of an array, by its index.
    Item(Name, Box<Expr>),
    /// An expression in round brackets.
    Bracket(Box<Expr>),
    /// An operation by its name, with its operands, whose number is its arity.
    Apply(Op, Vec<Expr>),
}

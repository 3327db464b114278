//! Nodes whose operands may be words that are carried from turn to turn, which stand for edges that aren't known yet.
use cg_word::Op;

/// An operand of a node that was made.
#[derive(Clone, Copy, Debug, PartialEq, Eq)]
pub enum Ref {
    /// A constant.
    Word(u32),
    /// The value of a node in the same turn.
    Now(u32),
    /// The rotation of 0, 1 and 2, which this node itself is.
    Rotation(u32),
    /// The remainder of two turns ago, in the recurrence for a quotient that begins with this node.
    Remainder(u32),
    /// The quotient of two turns ago, in the recurrence that begins with this node.
    Quotient(u32),
    /// The word that the word of this number has when the turn begins.
    Carried(usize),
}

/// The operands of a node that was made.
#[derive(Clone, Copy, Debug, PartialEq, Eq)]
pub enum Refs {
    Zero,
    One(Ref),
    Two(Ref, Ref),
    Three(Ref, Ref, Ref),
}

/// A node that was made.
#[derive(Clone, Copy, Debug, PartialEq, Eq)]
pub struct Sketch {
    pub op: Op,
    pub port: u32,
    pub operands: Refs,
}

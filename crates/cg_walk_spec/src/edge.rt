//! Edge operands.

/// An operand of a node that is an edge.
#[derive(Clone, Copy, Debug, PartialEq, Eq, Drop)]
pub struct EdgeOperand {
    /// The number of the node.
    pub node: u32,
    /// The number of the operand, from 0.
    pub arg: u32,
    /// The number of the node whose value it takes.
    pub source: u32,
    /// The number of iterations that the value is old.
    pub distance: u32,
}

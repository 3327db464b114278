//! Edges and their names.

/// The name of an edge of a kernel.
#[derive(Clone, Copy, Debug, PartialEq, Eq, Drop)]
pub enum EdgeId {
    /// The data edge that is an operand of a node.
    Arg {
        /// The number of the node that takes the value.
        node: u32,
        /// The number of its operand that is the edge, counted from 0.
        arg: u32,
    },
    /// The order edge of that number.
    Order(u32),
}

/// An edge of a kernel on an architecture.
#[derive(Clone, Copy, Debug, PartialEq, Eq, Drop)]
pub struct Edge {
    /// The number of the node that it leaves.
    pub source: usize,
    /// The number of the node that it enters.
    pub target: usize,
    /// The least number of cycles by which the target begins after the source.
    pub latency: u32,
    /// The distance of the edge, in iterations.
    pub distance: u32,
}

//! Certificates of register pressure.

/// A data edge whose stay in registers counts, given by the operand at which it ends.
#[derive(Clone, Copy, Debug, PartialEq, Eq, Drop)]
pub struct Stay {
    /// The number of the node that takes the value.
    pub node: u32,
    /// The number of its operand that is the edge, counted from 0.
    pub arg: u32,
}

/// A data edge that keeps its ends apart, given by the operand at which it ends.
#[derive(Clone, Copy, Debug, PartialEq, Eq, Drop)]
pub struct Pull {
    /// The number of the node that takes the value.
    pub node: u32,
    /// The number of its operand that is the edge, counted from 0.
    pub arg: u32,
    /// The number of times that the edge is taken.
    pub weight: u32,
}

/// An order edge that keeps its ends apart.
#[derive(Clone, Copy, Debug, PartialEq, Eq, Drop)]
pub struct Tie {
    /// The number of the order edge.
    pub edge: u32,
    /// The number of times that the edge is taken.
    pub weight: u32,
}

/// The edges of a circulation: those whose stays count, at most one from each node, and opposite to them edges that
/// keep their ends apart.
#[derive(Drop)]
pub struct Pressure {
    /// The data edges whose stays count.
    pub stays: Vec<Stay>,
    /// The data edges in the opposite direction.
    pub pulls: Vec<Pull>,
    /// The order edges in the opposite direction.
    pub ties: Vec<Tie>,
}

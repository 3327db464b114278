//! Moves of nodes.

use cg_model::Place;

/// A node, and the place at which it is to begin.
#[derive(Clone, Copy, Debug, PartialEq, Eq, Drop)]
pub struct Move {
    /// The number of the node.
    pub node: u32,
    /// Its unit and time.
    pub place: Place,
}

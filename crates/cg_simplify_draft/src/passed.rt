//! What a pass gives.

use cg_model::Kernel;

/// A kernel after a pass, without order edges, and whether the pass changed a node.
#[derive(Drop)]
pub struct Passed {
    /// The kernel.
    pub kernel: Kernel,
    /// Whether the pass changed a node.
    pub changed: bool,
}

//! The data edge that a route serves.
ghost use Rattle.std.specs.Prelude.{◌≡◌, slice_get};
ghost use Rattle.cg_model.specs.Kernel.{node};
ghost use Rattle.cg_check.specs.Edges.{data_edge};

use cg_model::{Kernel, Operand, Route};

/// The data edge of an operand.
#[derive(Clone, Copy)]
pub struct DataEdge {
    /// The number of the node whose value the operand takes.
    pub source: u32,
    /// The distance of the edge: the number of iterations since the node had the value.
    pub distance: u32,
}

/// Returns the data edge of the operand at which `route` ends; `None` if the operand isn't an edge.
pub fn edge_into(kernel: &Kernel, route: &Route) -> Option<DataEdge>
    ensures { result ≡ data_edge (slice_get (node kernel.now route.now.node).operands route.now.arg) }
{
    let nodes = kernel.nodes();
    if route.node as usize >= nodes.len() {
        return None;
    }
    let operands = nodes[route.node as usize].operands.as_slice();
    if route.arg as usize >= operands.len() {
        return None;
    }
    match &operands[route.arg as usize] {
        Operand::Const(_) => None,
        Operand::Edge { from, distance, .. } => Some(DataEdge {
            source: *from,
            distance: *distance,
        }),
    }
}

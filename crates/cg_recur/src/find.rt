//! The edge of a name.
ghost use Rattle.std.specs.Prelude.{◌≡◌};
ghost use Rattle.cg_recur.specs.Edges.{edge_of, data_edge_of, order_edge_of};

use crate::edge::{Edge, EdgeId};
use crate::least::latency;
use cg_arch::Arch;
use cg_model::{Kernel, Operand};

/// Finds the edge of `kernel` with the name `id`, if there is one.
pub fn find_edge(arch: &Arch, kernel: &Kernel, id: EdgeId) -> Option<Edge>
    ensures { result ≡ edge_of arch.now kernel.now id }
{
    match id {
        EdgeId::Arg { node, arg } => find_data_edge(arch, kernel, node, arg),
        EdgeId::Order(number) => find_order_edge(kernel, number),
    }
}

/// Finds the data edge that is operand `arg` of `node`.
fn find_data_edge(arch: &Arch, kernel: &Kernel, node: u32, arg: u32) -> Option<Edge>
    ensures { result ≡ data_edge_of arch.now kernel.now node arg }
{
    let nodes = kernel.nodes();
    if node as usize >= nodes.len() {
        return None;
    }
    let operands = nodes[node as usize].operands.as_slice();
    if arg as usize >= operands.len() {
        return None;
    }
    match &operands[arg as usize] {
        Operand::Const(_) => None,
        Operand::Edge { from, distance, .. } => Some(Edge {
            source: *from as usize,
            target: node as usize,
            latency: latency(arch, nodes[*from as usize].op),
            distance: *distance,
        }),
    }
}

/// Finds the order edge of number `number`.
fn find_order_edge(kernel: &Kernel, number: u32) -> Option<Edge>
    ensures { result ≡ order_edge_of kernel.now number }
{
    match kernel.order().get(number as usize) {
        None => None,
        Some(order) => Some(Edge {
            source: order.from as usize,
            target: order.to as usize,
            latency: 1,
            distance: order.distance,
        }),
    }
}

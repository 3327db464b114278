//! The edges of a kernel, with the operands at which they end.
ghost use Rattle.std.specs.Prelude.{◌≡◌};
ghost use Rattle.cg_bound_registers.specs.Pressure as spec;

use cg_model::{Kernel, Operand};

/// A data edge or an order edge of a kernel.
#[derive(Clone, Copy, Debug, PartialEq, Eq, Drop)]
pub struct Dependence {
    /// The number of the node that it leaves.
    pub source: u32,
    /// The number of the node that it enters.
    pub target: u32,
    /// The number of that node's operand; 0 for an order edge.
    pub arg: u32,
    /// The distance of the edge, in iterations.
    pub distance: u32,
}

/// Returns the data edge that is operand `arg` of node `node`, if that operand is an edge.
pub fn data_edge(kernel: &Kernel, node: u32, arg: u32) -> Option<Dependence>
    ensures { result ≡ spec.data_edge kernel.now node arg }
{
    match kernel.nodes().get(node as usize) {
        Some(taker) => match taker.operands.as_slice().get(arg as usize) {
            Some(Operand::Edge { from, distance, .. }) => Some(Dependence {
                source: *from,
                target: node,
                arg,
                distance: *distance,
            }),
            _ => None,
        },
        None => None,
    }
}

/// Returns order edge number `edge`, if there is one.
pub fn order_edge(kernel: &Kernel, edge: u32) -> Option<Dependence>
    ensures { result ≡ spec.order_edge kernel.now edge }
{
    match kernel.order().get(edge as usize) {
        Some(order) => Some(Dependence {
            source: order.from,
            target: order.to,
            arg: 0,
            distance: order.distance,
        }),
        None => None,
    }
}

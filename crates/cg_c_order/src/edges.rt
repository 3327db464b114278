//! The data edges of nodes.
ghost use Rattle.std.specs.Prelude.{◌≡◌, ◌<◌, ◌≤◌, ◌++◌, IfOk, OnOk, length};
ghost use Rattle.cg_c_order.specs.Chains.{data_edges, edge_of, edges_into};

use cg_model::{Node, Operand, OrderEdge};
use std::alloc::{AllocError, Global};

/// Returns the data edges of `nodes`.
pub(crate) fn data_edges(alloc: Global, nodes: &[Node]) -> Result<Vec<OrderEdge>, AllocError>
    requires { length nodes.now ≤ 1024 }
    ensures { IfOk result (λ edges. edges.items ≡ data_edges nodes.now) }
{
    let mut edges = Vec::new(alloc);
    for to in 0..nodes.len() {
        add_edges(nodes[to].operands.as_slice(), to as u32, &mut edges)?;
    }
    Ok(edges)
}

/// Adds to `edges` those into node `to`, whose operands are `operands`.
fn add_edges(operands: &[Operand], to: u32, edges: &mut Vec<OrderEdge>) -> Result<(), AllocError>
    ensures { OnOk result (edges.new.items ≡ edges.old.items ++ edges_into to operands.now) }
{
    for place in 0..operands.len() {
        add_edge(&operands[place], to, edges)?;
    }
    Ok(())
}

/// Adds to `edges` that of `operand`, if it has one, into node `to`.
fn add_edge(operand: &Operand, to: u32, edges: &mut Vec<OrderEdge>) -> Result<(), AllocError>
    ensures { OnOk result (edges.new.items ≡ edges.old.items ++ edge_of to operand.now) }
{
    match operand {
        Operand::Const(_) => {}
        Operand::Edge { from, distance, .. } => {
            edges.push(OrderEdge {
                from: *from,
                to,
                distance: *distance,
            })?;
        }
    }
    Ok(())
}

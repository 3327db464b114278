//! The edge operands of a kernel.
ghost use Rattle.std.specs.Prelude.{◌≡◌, ◌++◌, ◌<◌, ◌^◌, ◌||◌, eqb, if◌then◌else◌, [], ◌∷◌, IfOk, OnOk, length};
ghost use Rattle.cg_walk_spec.specs.State as states;
ghost use Rattle.std.specs.List.{range_with_len};
ghost use Rattle.cg_anneal.specs.Edges.{operand_edge, touching_of};

use cg_model::{Kernel, Operand};
use cg_walk_spec::EdgeOperand;
use std::alloc::{AllocError, Global};

/// Returns the edge operands of `kernel`, in the order of node and argument.
pub(crate) fn edges_of_kernel(
    alloc: Global,
    kernel: &Kernel,
) -> Result<Vec<EdgeOperand>, AllocError>
    ensures { IfOk result (λ v. v.items ≡ states.edges kernel.now) }
{
    let mut edges = Vec::new(alloc);
    let nodes = kernel.nodes();
    for node in 0..nodes.len() {
        add_operands(&mut edges, node as u32, nodes[node].operands.as_slice())?;
    }
    Ok(edges)
}

/// Adds to `edges` the edge operands of `node`, whose operands are `operands`.
fn add_operands(
    edges: &mut Vec<EdgeOperand>,
    node: u32,
    operands: &[Operand],
) -> Result<(), AllocError>
    requires { length operands.now < 2 ^ 32 }
    ensures { OnOk result (edges.new.items ≡ edges.old.items ++ states.edges_among node 0 operands.now) }
{
    for arg in 0..operands.len() {
        add_operand(edges, node, arg as u32, &operands[arg])?;
    }
    Ok(())
}

/// Adds operand `arg` of `node` to `edges` if it is an edge.
fn add_operand(
    edges: &mut Vec<EdgeOperand>,
    node: u32,
    arg: u32,
    operand: &Operand,
) -> Result<(), AllocError>
    ensures { OnOk result (edges.new.items ≡ edges.old.items ++ operand_edge node arg operand.now) }
{
    match operand {
        Operand::Const(_) => Ok(()),
        Operand::Edge { from, distance, .. } => {
            edges.push(EdgeOperand {
                node,
                arg,
                source: *from,
                distance: *distance,
            })?;
            Ok(())
        }
    }
}

/// Checks whether `edge` is an operand of `node` or has `node` as its source.
fn touches(edge: EdgeOperand, node: u32) -> bool
    ensures { result ≡ (eqb edge.node node || eqb edge.source node) }
{
    edge.node == node || edge.source == node
}

/// Adds `number` to `numbers` if it is `wanted`.
fn add_if(numbers: &mut Vec<u32>, number: u32, wanted: bool) -> Result<(), AllocError>
    ensures { OnOk result (numbers.new.items ≡ numbers.old.items ++ (if wanted then number ∷ [] else [])) }
{
    if wanted {
        numbers.push(number)?;
    }
    Ok(())
}

/// Returns the numbers of the `edges` that are operands of `node` or have it as their source, ascending.
pub(crate) fn touching(
    alloc: Global,
    edges: &[EdgeOperand],
    node: u32,
) -> Result<Vec<u32>, AllocError>
    requires few { length edges.now < 2 ^ 32 }
    ensures { IfOk result (λ v. v.items ≡ touching_of edges.now node) }
{
    let mut numbers = Vec::new(alloc);
    for i in 0..edges.len() {
        let wanted = touches(edges[i], node);
        add_if(&mut numbers, i as u32, wanted)?;
    }
    Ok(numbers)
}

/// Returns the numbers of all `edges`, ascending.
pub(crate) fn all(alloc: Global, edges: &[EdgeOperand]) -> Result<Vec<u32>, AllocError>
    requires few { length edges.now < 2 ^ 32 }
    ensures { IfOk result (λ v. v.items ≡ range_with_len 0 (length edges.now)) }
{
    let mut numbers = Vec::new(alloc);
    for i in 0..edges.len() {
        numbers.push(i as u32)?;
    }
    Ok(numbers)
}

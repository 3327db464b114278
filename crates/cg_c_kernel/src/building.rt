//! Nodes of the kernel from nodes that were made.
ghost use Rattle.std.specs.Prelude.{◌≡◌, ◌+◌, length, IfOk};
ghost use Rattle.cg_model.specs.declared.kernel.Operand.TheVariants.{Edge as AnEdge};
ghost use Rattle.cg_c_kernel.specs.Built.{AreBuilt, IsBuilt, all_built_of, built_of, carried_by};
ghost use Rattle.cg_c_kernel.specs.Edges.{edge_in};

use crate::edges::Edges;
use crate::sketch::{Ref, Refs, Sketch};
use cg_model::{Name, Node, Operand, Operands, Words};
use std::alloc::{AllocError, Global};

/// Returns an operand: the value of node `from` some turns ago, one for each of the initial words `words`.
fn edge(alloc: Global, from: u32, words: &[u32]) -> Result<Operand, AllocError>
    ensures { IfOk result (λ o. o ≡ AnEdge from (length words.now) words.now) }
{
    let Ok(distance) = u32::try_from(words.len()) else {
        return Err(AllocError);
    };
    Ok(Operand::Edge {
        from,
        distance,
        init: Words::new(Vec::from_slice(alloc, words)?),
    })
}

/// Returns the number of the node `by` nodes after node `first`.
fn after(first: u32, by: u32) -> Result<u32, AllocError>
    ensures { IfOk result (λ m. m ≡ first + by) }
{
    first.checked_add(by).ok_or(AllocError)
}

/// Returns the edge of the word of a number as an operand; the constant 0 if it has none.
fn carried(alloc: Global, edges: &Edges, number: usize) -> Result<Operand, AllocError>
    ensures { IfOk result (λ o. o ≡ carried_by (edge_in edges.now.edges.items number)) }
{
    if number >= edges.edges.len() {
        return Ok(Operand::Const(0));
    }
    match &edges.edges[number] {
        Some(carry) => edge(alloc, carry.from, &carry.words),
        None => Ok(Operand::Const(0)),
    }
}

/// Returns `operand` as an operand of the kernel, where carried words have these edges.
fn operand_of(alloc: Global, edges: &Edges, operand: Ref) -> Result<Operand, AllocError>
    ensures { IfOk result (λ o. o ≡ built_of edges.now.edges.items operand) }
{
    match operand {
        Ref::Word(word) => Ok(Operand::Const(word)),
        Ref::Now(node) => edge(alloc, node, &[]),
        Ref::Rotation(node) => edge(alloc, node, &[0, 1, 2]),
        Ref::Remainder(first) => edge(alloc, after(first, 3)?, &[u32::MAX - 1, u32::MAX]),
        Ref::Quotient(first) => edge(alloc, after(first, 4)?, &[u32::MAX, u32::MAX]),
        Ref::Carried(number) => carried(alloc, edges, number),
    }
}

/// Returns `operands` as operands of the kernel.
fn operands_of(alloc: Global, edges: &Edges, operands: Refs) -> Result<Operands, AllocError>
    ensures { IfOk result (λ os. os ≡ all_built_of edges.now.edges.items operands) }
{
    let list = match operands {
        Refs::Zero => Vec::new(alloc),
        Refs::One(a) => vec![in alloc; operand_of(alloc, edges, a)?]?,
        Refs::Two(a, b) => {
            let first = operand_of(alloc, edges, a)?;
            let second = operand_of(alloc, edges, b)?;
            vec![in alloc; first, second]?
        }
        Refs::Three(a, b, c) => {
            let first = operand_of(alloc, edges, a)?;
            let second = operand_of(alloc, edges, b)?;
            let third = operand_of(alloc, edges, c)?;
            vec![in alloc; first, second, third]?
        }
    };
    Ok(Operands::new(list))
}

/// Returns a node that was made as node `number` of the kernel.
fn node_of(alloc: Global, edges: &Edges, number: usize, sketch: Sketch) -> Result<Node, AllocError>
    ensures { IfOk result (λ n. IsBuilt edges.now.edges.items sketch n) }
{
    Ok(Node {
        name: Name::new(format!(in alloc; "n{number}")?),
        op: sketch.op,
        port: sketch.port,
        operands: operands_of(alloc, edges, sketch.operands)?,
    })
}

/// Returns the nodes of the kernel, where carried words have these edges.
pub fn nodes_from(
    alloc: Global,
    edges: &Edges,
    sketches: &[Sketch],
) -> Result<Vec<Node>, AllocError>
    ensures { IfOk result (λ nodes. AreBuilt edges.now.edges.items sketches.now nodes.items) }
{
    let mut nodes = Vec::new(alloc);
    for number in 0..sketches.len() {
        let node = node_of(alloc, edges, number, sketches[number])?;
        nodes.push(node)?;
    }
    Ok(nodes)
}

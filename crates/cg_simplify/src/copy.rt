//! Copies of nodes with other numbers.
ghost use Rattle.std.specs.Prelude.{◌≡◌, ◌<◌, ℕ, IfOk, length, map, slice_index};
ghost use Rattle.cg_model.specs.Kernel.{node, size};
ghost use Rattle.cg_simplify.specs.Live.{moved, moved_node};

use crate::number::number_of;
use cg_model::{Kernel, Name, Node, Operand, Operands, Words};
use std::alloc::{AllocError, Global};

/// Returns copies of the nodes `kept` of `kernel`, with the sources of their operands by `numbers`.
pub(crate) fn copy_nodes(
    alloc: Global,
    kernel: &Kernel,
    kept: &[u32],
    numbers: &[u32],
) -> Result<Vec<Node>, AllocError>
    requires { (k : ℕ) → k < length kept.now → slice_index kept.now k < size kernel.now }
    ensures { IfOk result (λ copies. copies.items ≡ map (λ u. moved_node numbers.now (node kernel.now u)) kept.now) }
{
    let mut copies = Vec::new(alloc);
    for place in 0..kept.len() {
        copies.push(copy_kept(alloc, kernel, kept[place], numbers)?)?;
    }
    Ok(copies)
}

/// Returns copies of `nodes`, with the sources of their operands by `numbers`.
pub(crate) fn copy_moved(
    alloc: Global,
    nodes: &[Node],
    numbers: &[u32],
) -> Result<Vec<Node>, AllocError>
    ensures { IfOk result (λ copies. copies.items ≡ map (moved_node numbers.now) nodes.now) }
{
    let mut copies = Vec::new(alloc);
    for node in nodes {
        copies.push(copy_node(alloc, node, numbers)?)?;
    }
    Ok(copies)
}

/// Returns a copy of node `number` of `kernel`, with the sources of its operands by `numbers`.
fn copy_kept(
    alloc: Global,
    kernel: &Kernel,
    number: u32,
    numbers: &[u32],
) -> Result<Node, AllocError>
    requires { number < size kernel.now }
    ensures { IfOk result (λ copy. copy ≡ moved_node numbers.now (node kernel.now number)) }
{
    copy_node(alloc, &kernel.nodes()[number as usize], numbers)
}

/// Returns a copy of `node`, with the sources of its operands by `numbers`.
fn copy_node(alloc: Global, node: &Node, numbers: &[u32]) -> Result<Node, AllocError>
    ensures { IfOk result (λ copy. copy ≡ moved_node numbers.now node.now) }
{
    Ok(Node {
        name: Name::copy_of(alloc, node.name.as_str())?,
        op: node.op,
        port: node.port,
        operands: copy_operands(alloc, node.operands.as_slice(), numbers)?,
    })
}

/// Returns a copy of `operands`, with their sources by `numbers`.
fn copy_operands(
    alloc: Global,
    operands: &[Operand],
    numbers: &[u32],
) -> Result<Operands, AllocError>
    ensures { IfOk result (λ copy. copy ≡ map (moved numbers.now) operands.now) }
{
    let mut copies = Vec::new(alloc);
    for operand in operands {
        copies.push(copy_operand(alloc, operand, numbers)?)?;
    }
    Ok(Operands::new(copies))
}

/// Returns a copy of `operand`, with its source by `numbers`.
fn copy_operand(alloc: Global, operand: &Operand, numbers: &[u32]) -> Result<Operand, AllocError>
    ensures { IfOk result (λ copy. copy ≡ moved numbers.now operand.now) }
{
    match operand {
        Operand::Const(word) => Ok(Operand::Const(*word)),
        Operand::Edge {
            from,
            distance,
            init,
        } => Ok(Operand::Edge {
            from: number_of(numbers, *from),
            distance: *distance,
            init: Words::new(Vec::from_slice(alloc, init.as_slice())?),
        }),
    }
}

//! Copies of nodes, with their names, operands and initial words.
ghost use Rattle.std.specs.Prelude.{◌≡◌, IfOk};

use crate::kernel::{Node, Operand};
use crate::lists::{Name, Operands, Words};
use std::alloc::{AllocError, Global};

/// Returns copies of `nodes`.
pub fn copy_nodes(alloc: Global, nodes: &[Node]) -> Result<Vec<Node>, AllocError>
    ensures { IfOk result (λ copies. copies.items ≡ nodes.now) }
{
    let mut copies = Vec::new(alloc);
    for node in nodes {
        copies.push(copy_node(alloc, node)?)?;
    }
    Ok(copies)
}

/// Returns a copy of `node`.
pub fn copy_node(alloc: Global, node: &Node) -> Result<Node, AllocError>
    ensures { IfOk result (λ copy. copy ≡ node.now) }
{
    Ok(Node {
        name: Name::copy_of(alloc, node.name.as_str())?,
        op: node.op,
        port: node.port,
        operands: Operands::new(copy_operands(alloc, node.operands.as_slice())?),
    })
}

/// Returns copies of `operands`.
pub fn copy_operands(alloc: Global, operands: &[Operand]) -> Result<Vec<Operand>, AllocError>
    ensures { IfOk result (λ copies. copies.items ≡ operands.now) }
{
    let mut copies = Vec::new(alloc);
    for operand in operands {
        copies.push(copy_operand(alloc, operand)?)?;
    }
    Ok(copies)
}

/// Returns a copy of `operand`.
pub fn copy_operand(alloc: Global, operand: &Operand) -> Result<Operand, AllocError>
    ensures { IfOk result (λ copy. copy ≡ operand.now) }
{
    match operand {
        Operand::Const(word) => Ok(Operand::Const(*word)),
        Operand::Edge {
            from,
            distance,
            init,
        } => Ok(Operand::Edge {
            from: *from,
            distance: *distance,
            init: Words::new(Vec::from_slice(alloc, init.as_slice())?),
        }),
    }
}

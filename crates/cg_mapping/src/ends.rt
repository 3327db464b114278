//! The edge operands of a kernel.
ghost use Rattle.std.specs.Prelude.{◌≡◌, ◌++◌, IfOk, OnOk, map};
ghost use Rattle.cg_model.specs.Mapping as mappings;
ghost use Rattle.cg_mapping.specs.Ends as spec;

use cg_model::{Node, Operand};
use std::alloc::{AllocError, Global};

/// An edge operand: the number of its node, and its own number.
#[derive(Clone, Copy)]
pub struct EdgeOperand {
    pub node: usize,
    pub arg: usize,
}

/// Returns the edge operands of a kernel, in the order of nodes and operands.
pub fn ends_of(alloc: Global, nodes: &[Node]) -> Result<Vec<EdgeOperand>, AllocError>
    ensures { IfOk result (λ ends. map spec.as_end ends.items ≡ mappings.ends_from 0 nodes.now) }
{
    let mut ends = Vec::new(alloc);
    for (number, node) in nodes.iter().enumerate() {
        push_ends(&mut ends, number, node.operands.as_slice())?;
    }
    Ok(ends)
}

/// Adds the edge operands of one node.
fn push_ends(
    ends: &mut Vec<EdgeOperand>,
    node: usize,
    operands: &[Operand],
) -> Result<(), AllocError>
    ensures { OnOk result (map spec.as_end ends.new.items
        ≡ map spec.as_end ends.old.items ++ mappings.ends_of node 0 operands.now) }
{
    for (arg, operand) in operands.iter().enumerate() {
        if matches!(operand, Operand::Edge { .. }) {
            ends.push(EdgeOperand { node, arg })?;
        }
    }
    Ok(())
}

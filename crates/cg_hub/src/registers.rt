//! The hub registers that values use.
ghost use Rattle.std.specs.Prelude.{◌≡◌, ◌≤◌};
ghost use Rattle.cg_model.specs.Kernel.{size};
ghost use Rattle.cg_hub.specs.Hub as spec;

use cg_model::{Kernel, Node, Operand};

/// Returns the number of registers that `operand` needs for the value of `node`.
fn needs(operand: &Operand, node: u32) -> usize
    ensures { result ≡ spec.needs node operand.now }
{
    match operand {
        Operand::Const(_) => 0,
        Operand::Edge { from, distance, .. } => if *from == node {
            *distance as usize + 1
        } else {
            0
        },
    }
}

/// Returns the greatest number of registers that one of `operands` needs.
fn most_of(operands: &[Operand], node: u32) -> usize
    ensures { result ≡ spec.most_of node operands.now }
{
    let mut most = 0;
    for operand in operands {
        most = most.max(needs(operand, node));
    }
    most
}

/// Returns the greatest number of registers that an operand of one of `nodes` needs.
fn most(nodes: &[Node], node: u32) -> usize
    ensures { result ≡ spec.most node nodes.now }
{
    let mut most = 0;
    for consumer in nodes {
        most = most.max(most_of(consumer.operands.as_slice(), node));
    }
    most
}

/// Returns the number of registers of the nodes below `node`: the place in the hub where its own registers begin.
pub(crate) fn registers_before(kernel: &Kernel, node: u32) -> usize
    requires { node ≤ size kernel.now }
    ensures { result ≡ spec.registers_before kernel.now node }
{
    let nodes = kernel.nodes();
    let mut sum = 0;
    for earlier in 0..node {
        sum += most(nodes, earlier);
    }
    sum
}

//! Builds the kernel that a file describes.
ghost use Rattle.std.specs.Prelude.{◌≡◌, ◌≤◌, IfOk, length, map};
ghost use Rattle.cg_model.specs.Limits.{most_nodes};
ghost use Rattle.cg_model.specs.Kernel.{IsKernel};
ghost use Rattle.cg_model.specs.Limits.{most_nodes};
ghost use Rattle.cg_kernel.specs.Numbers.{IsIndex};
ghost use Rattle.cg_kernel.specs.Answer as spec;

use crate::rules::op_of;
use crate::written::{WrittenArg, WrittenEdge, WrittenKernel, WrittenNode};
use cg_model::{Items, Kernel, Name, Node, Operand, OrderEdge, Words};
use cg_reading::{Numbers, number_in};
use cg_word::Op;
use std::alloc::{AllocError, Global};

/// Returns the kernel that `written` describes, which must be valid.
#[tactic(auto, unfolding(crate::specs::Answer::kernel_of))]
pub fn kernel_of(
    alloc: Global,
    numbers: &Numbers,
    written: &WrittenKernel,
) -> Result<Kernel, AllocError>
    requires index { IsIndex numbers.now written.now.nodes }
    requires few { length written.now.nodes ≤ most_nodes }
    requires valid { IsKernel (spec.kernel_of written.now) }
    ensures { IfOk result (λ kernel. kernel ≡ spec.kernel_of written.now) }
{
    let nodes = nodes_of(alloc, numbers, written)?;
    let order = edges_of(alloc, numbers, written)?;
    Ok(Kernel::new(nodes, order))
}

fn nodes_of(
    alloc: Global,
    numbers: &Numbers,
    written: &WrittenKernel,
) -> Result<Vec<Node>, AllocError>
    requires index { IsIndex numbers.now written.now.nodes }
    requires few { length written.now.nodes ≤ most_nodes }
    ensures { IfOk result (λ nodes. nodes.items ≡ map (spec.node_of written.now) written.now.nodes) }
{
    let mut nodes = Vec::new(alloc);
    let list = written.nodes.as_slice();
    for node in list {
        nodes.push(node_of(alloc, numbers, written, node)?)?;
    }
    Ok(nodes)
}

fn edges_of(
    alloc: Global,
    numbers: &Numbers,
    written: &WrittenKernel,
) -> Result<Vec<OrderEdge>, AllocError>
    requires index { IsIndex numbers.now written.now.nodes }
    requires few { length written.now.nodes ≤ most_nodes }
    ensures { IfOk result (λ order. order.items ≡ map (spec.edge_of written.now) written.now.order) }
{
    let mut order = Vec::new(alloc);
    let list = written.order.as_slice();
    for edge in list {
        order.push(edge_of(numbers, written, edge))?;
    }
    Ok(order)
}

fn node_of(
    alloc: Global,
    numbers: &Numbers,
    written: &WrittenKernel,
    node: &WrittenNode,
) -> Result<Node, AllocError>
    requires index { IsIndex numbers.now written.now.nodes }
    requires few { length written.now.nodes ≤ most_nodes }
    ensures { IfOk result (λ made. made ≡ spec.node_of written.now node.now) }
{
    let op = match op_of(written, node) {
        Some(op) => op,
        None => Op::Const,
    };
    let port = match node.port {
        Some(port) => port,
        None => 0,
    };
    Ok(Node {
        name: Name::copy_of(alloc, node.name.as_str())?,
        op,
        port,
        operands: Items::new(operands_of(alloc, numbers, written, node.args.as_slice())?),
    })
}

fn operands_of(
    alloc: Global,
    numbers: &Numbers,
    written: &WrittenKernel,
    args: &[WrittenArg],
) -> Result<Vec<Operand>, AllocError>
    requires index { IsIndex numbers.now written.now.nodes }
    requires few { length written.now.nodes ≤ most_nodes }
    ensures { IfOk result (λ operands. operands.items ≡ map (spec.operand_of written.now) args.now) }
{
    let mut operands = Vec::new(alloc);
    for arg in args {
        operands.push(operand_of(alloc, numbers, written, arg)?)?;
    }
    Ok(operands)
}

fn operand_of(
    alloc: Global,
    numbers: &Numbers,
    written: &WrittenKernel,
    arg: &WrittenArg,
) -> Result<Operand, AllocError>
    requires index { IsIndex numbers.now written.now.nodes }
    requires few { length written.now.nodes ≤ most_nodes }
    ensures { IfOk result (λ operand. operand ≡ spec.operand_of written.now arg.now) }
{
    match arg {
        WrittenArg::Number(constant) => Ok(Operand::Const(*constant)),
        WrittenArg::Source {
            from,
            distance,
            init,
            ..
        } => Ok(Operand::Edge {
            from: node_number(numbers, written, from.as_str()),
            distance: *distance,
            init: Words::new(init.as_slice().to_vec(alloc)?),
        }),
    }
}

fn edge_of(numbers: &Numbers, written: &WrittenKernel, edge: &WrittenEdge) -> OrderEdge
    requires index { IsIndex numbers.now written.now.nodes }
    requires few { length written.now.nodes ≤ most_nodes }
    ensures { result ≡ spec.edge_of written.now edge.now }
{
    OrderEdge {
        from: node_number(numbers, written, edge.from.as_str()),
        to: node_number(numbers, written, edge.to.as_str()),
        distance: edge.distance,
    }
}

fn node_number(numbers: &Numbers, written: &WrittenKernel, name: &str) -> u32
    requires index { IsIndex numbers.now written.now.nodes }
    requires few { length written.now.nodes ≤ most_nodes }
    ensures { result ≡ spec.node_number written.now name.now }
{
    match number_in(numbers, name) {
        Some(number) => {
            prove!(number < written.nodes.as_slice().len());
            number as u32
        }
        None => 0,
    }
}

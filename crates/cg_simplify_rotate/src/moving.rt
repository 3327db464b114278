//! A node that is moved to a later place.
ghost use Rattle.std.specs.Prelude.{◌≡◌, ◌<◌, ◌≤◌, ℕ, length, map, slice_index_or};
ghost use Rattle.cg_model.specs.Kernel.{no_node};
ghost use Rattle.cg_model.specs.Limits.{most_nodes};
ghost use Rattle.cg_simplify_rotate.specs.Moving.{moved, moved_node, place_from, number_of};

use cg_model::{Node, Operand, Operands};
use std::alloc::Global;
use std::mem::replace;

/// Moves node `u` of `nodes` to just before node `v`, a later one, and gives all data edges the new numbers.
pub(crate) fn move_before(alloc: Global, nodes: &mut [Node], u: usize, v: usize)
    requires later { u < v }
    requires known { v < length nodes.old }
    requires few { length nodes.old ≤ most_nodes }
    ensures size { length nodes.new ≡ length nodes.old }
    ensures nodes { (k : ℕ) → k < length nodes.old → slice_index_or nodes.new k no_node ≡ moved_node u v (slice_index_or nodes.old (place_from u v k) no_node) }
{
    shift(nodes, u, v);
    renumber_nodes(alloc, nodes, u as u32, v as u32);
}

/// Moves node `u` of `nodes` to just before node `v`, and leaves all data edges as they are.
fn shift(nodes: &mut [Node], u: usize, v: usize)
    requires later { u < v }
    requires known { v < length nodes.old }
    ensures size { length nodes.new ≡ length nodes.old }
    ensures nodes { (k : ℕ) → k < length nodes.old → slice_index_or nodes.new k no_node ≡ slice_index_or nodes.old (place_from u v k) no_node }
{
    for place in u + 1..v {
        nodes.swap(place - 1, place);
    }
}

/// Gives the operands of `nodes` the numbers that nodes have once node `u` was moved to just before node `v`.
fn renumber_nodes(alloc: Global, nodes: &mut [Node], u: u32, v: u32)
    ensures { nodes.new ≡ map (moved_node u v) nodes.old }
{
    for number in 0..nodes.len() {
        renumber(alloc, &mut nodes[number], u, v);
    }
}

/// Gives the operands of `node` the numbers that nodes have once node `u` was moved to just before node `v`.
fn renumber(alloc: Global, node: &mut Node, u: u32, v: u32)
    ensures { node.new ≡ moved_node u v node.old }
{
    let mut operands = replace(&mut node.operands, Operands::new(Vec::new(alloc))).into_vec();
    renumber_operands(&mut operands, u, v);
    node.operands = Operands::new(operands);
}

/// Gives `operands` the numbers that nodes have once node `u` was moved to just before node `v`.
fn renumber_operands(operands: &mut [Operand], u: u32, v: u32)
    ensures { operands.new ≡ map (moved u v) operands.old }
{
    for place in 0..operands.len() {
        renumber_one(&mut operands[place], u, v);
    }
}

/// Gives `operand` the number that its source has once node `u` was moved to just before node `v`.
fn renumber_one(operand: &mut Operand, u: u32, v: u32)
    ensures { operand.new ≡ moved u v operand.old }
{
    if let Operand::Edge { from, .. } = operand {
        *from = new_number(*from, u, v);
    }
}

/// Returns the number of node `number` once node `u` was moved to just before node `v`.
fn new_number(number: u32, u: u32, v: u32) -> u32
    ensures { result ≡ number_of u v number }
{
    if number < u || v <= number {
        number
    } else if number == u {
        v - 1
    } else {
        number - 1
    }
}

//! The nodes of a given kernel that a rewritten kernel's nodes are, by their names.
ghost use Rattle.std.specs.Prelude.{◌≡◌, ◌<◌, ◌≤◌, IfOk, length, slice_index_or};
ghost use Rattle.cg_model.specs.Kernel.{no_node};
ghost use Rattle.cg_simplify_draft.specs.Rewritten.{IsRewritten};
ghost use Rattle.cg_simplify_order.specs.Found.{HasNamesakes, IsCalled};

use cg_model::{Kernel, Node};
use std::alloc::{AllocError, Global};

/// Returns for each node of `rewritten` the number of the node of `given` with its name.
pub(crate) fn namesakes_of(
    alloc: Global,
    given: &Kernel,
    rewritten: &Kernel,
) -> Result<Vec<u32>, AllocError>
    requires { IsRewritten given.now rewritten.now }
    ensures { IfOk result (λ numbers. HasNamesakes given.now rewritten.now numbers.items) }
{
    let given = given.nodes();
    let nodes = rewritten.nodes();
    let mut numbers = Vec::new(alloc);
    let mut last = 0;
    for number in 0..nodes.len() {
        // names mostly come in the order of the given kernel
        last = number_from(given, last, nodes[number].name.as_str());
        numbers.push(last)?;
    }
    Ok(numbers)
}

/// Returns the number of the node of `nodes` that is called `name`, which is sought from node `start` on first.
fn number_from(nodes: &[Node], start: u32, name: &str) -> u32
    requires called { IsCalled nodes.now name.now }
    requires few { length nodes.now ≤ 1024 }
    ensures within { result < length nodes.now }
    ensures named { (slice_index_or nodes.now result no_node).name ≡ name.now }
{
    for number in start as usize..nodes.len() {
        if nodes[number].name.as_str() == name {
            return number as u32;
        }
    }
    number_of(nodes, name)
}

/// Returns the number of the node of `nodes` that is called `name`.
fn number_of(nodes: &[Node], name: &str) -> u32
    requires called { IsCalled nodes.now name.now }
    requires few { length nodes.now ≤ 1024 }
    ensures within { result < length nodes.now }
    ensures named { (slice_index_or nodes.now result no_node).name ≡ name.now }
{
    for number in 0..nodes.len() {
        if nodes[number].name.as_str() == name {
            return number as u32;
        }
    }
    unreachable!()
}

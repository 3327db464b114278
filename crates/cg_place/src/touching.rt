//! The order edges of each node, and the order edges that times break.
ghost use Rattle.std.specs.Prelude.{◌≡◌, ◌<◌, ◌≤◌, ◌∷◌, ◌++◌, [], IfOk, OnOk, length, replicate, slice_set, count_by};
ghost use Rattle.cg_model.specs.Kernel.{size};
ghost use Rattle.cg_model.specs.Limits.{most_order_edges};
ghost use Rattle.cg_place.specs.Counts as spec;
ghost use Rattle.cg_place.specs.Touching.{AreKnown, AreTouching, IsAdded, list_of};

use cg_model::{Items, Kernel, OrderEdge, Place};
use std::alloc::{AllocError, Global};

/// Returns for each node the order edges that begin or end there.
pub(crate) fn touching(alloc: Global, kernel: &Kernel) -> Result<Vec<Items<OrderEdge>>, AllocError>
    ensures { IfOk result (λ t. AreTouching (size kernel.now) kernel.now.order t.items) }
{
    let mut lists = no_edges(alloc, kernel.nodes().len())?;
    for edge in kernel.order() {
        add_edge(&mut lists, *edge)?;
    }
    Ok(lists)
}

/// Returns `count` empty lists of order edges.
fn no_edges(alloc: Global, count: usize) -> Result<Vec<Items<OrderEdge>>, AllocError>
    ensures { IfOk result (λ t. t.items ≡ replicate count []) }
{
    let mut lists = Vec::new(alloc);
    for _ in 0..count {
        lists.push(Items::new(Vec::new(alloc)))?;
    }
    Ok(lists)
}

/// Adds `edge` to the lists of its nodes: once, if they are one node.
fn add_edge(lists: &mut [Items<OrderEdge>], edge: OrderEdge) -> Result<(), AllocError>
    requires from { edge.from < length lists.old }
    requires to { edge.to < length lists.old }
    ensures { OnOk result (IsAdded edge lists.old lists.new) }
{
    add(lists, edge.from as usize, edge)?;
    if edge.to != edge.from {
        add(lists, edge.to as usize, edge)?;
    }
    Ok(())
}

/// Adds `edge` to the list of `node`.
fn add(lists: &mut [Items<OrderEdge>], node: usize, edge: OrderEdge) -> Result<(), AllocError>
    requires { node < length lists.old }
    ensures { OnOk result (lists.new ≡ slice_set lists.old node (list_of lists.old node ++ edge ∷ [])) }
{
    lists[node].push(edge)?;
    Ok(())
}

/// Returns whether the target of `edge` doesn't begin at least a cycle after its source.
fn is_broken(edge: OrderEdge, places: &[Place], ii: u32) -> bool
    requires from { edge.from < length places.now }
    requires to { edge.to < length places.now }
    ensures { result ≡ spec.is_broken ii places.now edge }
{
    let source = u64::from(places[edge.from as usize].time);
    let target = u64::from(places[edge.to as usize].time);
    target + u64::from(ii) * u64::from(edge.distance) < source + 1
}

/// Returns the number of broken order edges among `edges`.
pub(crate) fn count_broken(edges: &[OrderEdge], places: &[Place], ii: u32) -> u32
    requires known { AreKnown (length places.now) edges.now }
    requires few { length edges.now ≤ most_order_edges }
    ensures value { result ≡ count_by (spec.is_broken ii places.now) edges.now }
    ensures bound { result ≤ length edges.now }
{
    let mut count = 0;
    for edge in edges {
        if is_broken(*edge, places, ii) {
            count += 1;
        }
    }
    count
}

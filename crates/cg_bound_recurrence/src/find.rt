//! The search for a closed chain of edges that is too long.
ghost use Rattle.std.specs.Prelude.{◌≡◌, ℕ, ◌≤◌, IfOk, Some, length, slice_get, slice_index};
ghost use Rattle.cg_recur.specs.declared.edge.Edge.{Edge};
ghost use Rattle.cg_bound_registers.specs.Sums.{table};
ghost use Rattle.cg_bound_recurrence.specs.Lengthened.{AreLonger};
ghost use Rattle.cg_bound_recurrence.specs.WayCycles.{IsWayAnswer};

use crate::check::least_registers;
use cg_recur::{
    Arch, Edge, EdgeId, Kernel, Numbered, edges_of, latencies_are_small, longest_chains, name_all,
};
use std::alloc::{AllocError, Global};

/// Returns a closed chain of edges whose latencies, plus the least numbers of registers that their values cross, exceed
/// the interval `ii` times its distances, if there is one. It meets no node twice, and begins at its least-numbered
/// node. `hops` has three numbers per node: for each operand the least number of registers that a value crosses on its
/// way there.
pub fn find_way_cycle(
    alloc: Global,
    arch: &Arch,
    kernel: &Kernel,
    hops: &[u32],
    ii: u32,
) -> Result<Option<Vec<EdgeId>>, AllocError>
    requires small { (k : ℕ) → slice_index hops.now k ≤ 4096 }
    ensures { IfOk result (λ found. IsWayAnswer arch.now kernel.now (table hops.now) ii found) }
{
    latencies_are_small(arch);
    let list = edges_of(alloc, arch, kernel)?;
    let edges = lengthen(alloc, &list.names, &list.edges, hops)?;
    let nodes = kernel.nodes().len();
    match longest_chains(alloc, &edges, nodes, ii)? {
        Numbered::Cycle(numbers) => Ok(Some(name_all(alloc, &list.names, &numbers)?)),
        Numbered::Times(_) => Ok(None),
    }
}

/// Returns `edges` with longer latencies: for each data edge its number in `hops` is added, for an order edge nothing.
/// `names` has the names of the edges.
fn lengthen(
    alloc: Global,
    names: &[EdgeId],
    edges: &[Edge],
    hops: &[u32],
) -> Result<Vec<Edge>, AllocError>
    requires each { length names.now ≡ length edges.now }
    requires quick { (k : ℕ) (e : Edge) → slice_get edges.now k ≡ Some e → e.latency ≤ 4 }
    requires small { (k : ℕ) → slice_index hops.now k ≤ 4096 }
    ensures { IfOk result (λ long. AreLonger (table hops.now) names.now edges.now long.items) }
{
    let mut long = Vec::new(alloc);
    for k in 0..edges.len() {
        let edge = edges[k];
        long.push(Edge {
            source: edge.source,
            target: edge.target,
            latency: edge.latency + least_registers(hops, names[k]),
            distance: edge.distance,
        })?;
    }
    Ok(long)
}

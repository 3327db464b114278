//! Counts of the nodes and units of a set of operations, and the sums over a chain of edges.
ghost use Rattle.std.specs.Prelude.{◌≡◌};
ghost use Rattle.cg_recur.specs.Chain.{latencies, distances};
ghost use Rattle.cg_recur.specs.Edges.{edge_of};
ghost use Rattle.cg_class.specs.Class.{offers_one, nodes_in, units_for};

use cg_arch::Arch;
use cg_model::{Kernel, Node, Unit};
use cg_recur::{EdgeId, find_edge};
use cg_word::{Op, OpSet};

/// Returns the number of `nodes` whose operation is in `set`.
pub(crate) fn count_nodes(nodes: &[Node], set: OpSet) -> usize
    ensures { result ≡ nodes_in nodes.now set }
{
    nodes.iter().filter(|node| set.has(node.op)).count()
}

/// Returns the number of `units` that offer an operation of `set`.
pub(crate) fn count_units(units: &[Unit], set: OpSet) -> usize
    ensures { result ≡ units_for units.now set }
{
    units
        .iter()
        .filter(|unit| offers_one(set, unit.ops))
        .count()
}

/// Returns whether some operation of `set` is in `offered`.
#[tactic(auto, unfolding(cg_class::specs::Class::offers_one))]
fn offers_one(set: OpSet, offered: OpSet) -> bool
    ensures { result ≡ offers_one set offered }
{
    Op::ALL
        .iter()
        .copied()
        .any(move |op: Op| set.has(op) && offered.has(op))
}

/// Returns the sum of the latencies of the edges `ids` of a chain, in cycles, and that of their distances, in
/// iterations.
pub fn sums(arch: &Arch, kernel: &Kernel, ids: &[EdgeId]) -> (u128, u128)
    ensures latency { result.0 ≡ latencies (edge_of arch.now kernel.now) ids.now }
    ensures distance { result.1 ≡ distances (edge_of arch.now kernel.now) ids.now }
{
    let mut latency: u128 = 0;
    let mut distance: u128 = 0;
    for id in ids {
        if let Some(edge) = find_edge(arch, kernel, *id) {
            latency += edge.latency as u128;
            distance += edge.distance as u128;
        }
    }
    (latency, distance)
}

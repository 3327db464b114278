//! The check of a closed chain of edges.
ghost use Rattle.std.specs.Prelude.{◌≡◌, ◌↔◌, IsTrue};
ghost use Rattle.cg_bound_registers.specs.Sums.{table};
ghost use Rattle.cg_bound_recurrence.specs.WayCycles.{registers_of, IsWayCycle};

use cg_bound_registers::hops_at;
use cg_recur::{Arch, EdgeId, Kernel, find_edge, source};

/// Returns whether `cycle` names the edges of a closed chain whose latencies, plus the least numbers of registers that
/// their values cross, exceed the interval `ii` times its distances. `hops` has three numbers per node: for each operand
/// the least number of registers that a value crosses on its way there.
pub fn check_way_cycle(
    arch: &Arch,
    kernel: &Kernel,
    hops: &[u32],
    ii: u32,
    cycle: &[EdgeId],
) -> bool
    ensures { IsTrue result ↔ IsWayCycle arch.now kernel.now (table hops.now) ii cycle.now }
{
    if cycle.is_empty() {
        return false;
    }
    let start = source(arch, kernel, cycle[0]);
    let mut at = start;
    let mut latency: u128 = 0;
    let mut distance: u128 = 0;
    for id in cycle {
        match find_edge(arch, kernel, *id) {
            None => return false,
            Some(edge) => {
                if edge.source != at {
                    return false;
                }
                latency += edge.latency as u128 + least_registers(hops, *id) as u128;
                distance += edge.distance as u128;
                at = edge.target;
            }
        }
    }
    at == start && ii as u128 * distance < latency
}

/// Returns the number that `hops` has for edge `id`: the least number of registers that its value crosses; 0 for an
/// order edge.
pub fn least_registers(hops: &[u32], id: EdgeId) -> u32
    ensures { result ≡ registers_of (table hops.now) id }
{
    match id {
        EdgeId::Arg { node, arg } => hops_at(hops, node, arg),
        EdgeId::Order(_) => 0,
    }
}

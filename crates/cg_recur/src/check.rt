//! The check of the closed chain of a certificate.
ghost use Rattle.std.specs.Prelude.{◌≡◌, ◌↔◌, IsTrue};
ghost use Rattle.cg_recur.specs.Chain.{source_of};
ghost use Rattle.cg_recur.specs.Recurrences.{IsRecurrence};
ghost use Rattle.cg_recur.specs.Edges.{edge_of};

use crate::{EdgeId, find_edge};
use cg_arch::Arch;
use cg_model::Kernel;

/// Returns whether `cycle` names the edges of a closed chain whose latencies exceed the interval `ii` times its
/// distances.
pub fn check_cycle(arch: &Arch, kernel: &Kernel, ii: u32, cycle: &[EdgeId]) -> bool
    ensures { IsTrue result ↔ IsRecurrence arch.now kernel.now ii cycle.now }
{
    if cycle.is_empty() {
        return false;
    }
    let start = source(arch, kernel, cycle[0]);
    let mut at = start;
    let mut latency: u128 = 0;
    let mut distance: u128 = 0;
    for id in cycle {
        match find_edge(arch, kernel, *id) {
            None => return false,
            Some(edge) => {
                if edge.source != at {
                    return false;
                }
                latency += edge.latency as u128;
                distance += edge.distance as u128;
                at = edge.target;
            }
        }
    }
    at == start && ii as u128 * distance < latency
}

/// Returns the node that edge `id` leaves; 0 if the kernel has no such edge.
pub fn source(arch: &Arch, kernel: &Kernel, id: EdgeId) -> usize
    ensures { result ≡ source_of (edge_of arch.now kernel.now id) }
{
    match find_edge(arch, kernel, id) {
        None => 0,
        Some(edge) => edge.source,
    }
}

//! Making links kept, one after another.
ghost use Rattle.std.specs.Prelude.{◌≡◌, ℕ, ◌≤◌, IfOk, length, slice_index};
ghost use Rattle.cg_bound_flow.specs.Network.{IsGraph};
ghost use Rattle.cg_bound_flow.specs.Chains.{IsIncidence};
ghost use Rattle.cg_bound_flow.specs.Route.{IsSettled};

use crate::chains::Network;
use crate::lift::{Raise, lift};
use crate::reach::{Reached, Terminals};
use std::alloc::{AllocError, Global};

/// A link that can't be kept, and the places that rise with its end; the link's beginning is one of them.
#[derive(Drop)]
pub(crate) struct Blocked {
    pub reached: Reached,
    pub link: usize,
}

/// Lifts places of `network` until all links are kept, or one can't be.
pub(crate) fn keep_all(
    alloc: Global,
    network: Network,
    flow: &[u32],
    potentials: &mut Vec<u64>,
) -> Result<Option<Blocked>, AllocError>
    requires graph { IsGraph (length potentials.old.items) network.links.now }
    requires incidence { IsIncidence network.links.now (length potentials.old.items) network.incidence.now }
    requires flows { length flow.now ≡ length network.links.now }
    requires idle { (k : ℕ) → slice_index flow.now k ≡ 0 }
    requires times { (x : ℕ) → slice_index potentials.old.items x ≡ 0 }
    ensures { IfOk result (IsSettled network.entry.links.now flow.now (length potentials.old.items) potentials.new.items) }
{
    let links = network.links;
    for k in 0..links.len() {
        let link = links[k];
        let high = potentials[link.from] + link.gain;
        let low = potentials[link.to] + link.loss;
        if low < high {
            let raise = Raise {
                terminals: Terminals {
                    start: link.to,
                    goal: link.from,
                },
                need: high - low,
                count: k,
            };
            if let Some(reached) = lift(alloc, network, flow, potentials, raise)? {
                return Ok(Some(Blocked { reached, link: k }));
            }
        }
    }
    Ok(None)
}

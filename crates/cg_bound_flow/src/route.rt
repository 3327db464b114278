//! Routing values one after another.
ghost use Rattle.std.specs.Prelude.{◌≡◌, ℕ, ◌+◌, ◌^◌, ◌<◌, ◌≤◌, IfOk, OnOk, List, length, slice_index};
ghost use Rattle.cg_bound_flow.specs.Network.{IsGraph, AreKept};
ghost use Rattle.cg_bound_flow.specs.Chains.{IsIncidence};
ghost use Rattle.cg_bound_flow.specs.Route.{IsRouted, IsRouting, IsRoutedToo, IsSpan, HasSpans, AreRouted};

use crate::chains::Network;
use crate::lift::{Raise, lift};
use crate::network::Part;
use crate::push::{Path, Priced, push};
use crate::reach::Terminals;
use std::alloc::{AllocError, Global};

/// The flow of the values that are routed, with the potential of each place, and for each node whether its value is
/// routed.
#[derive(Drop)]
pub(crate) struct Routing {
    pub flow: Vec<u32>,
    pub potentials: Vec<u64>,
    pub routed: Vec<bool>,
}

/// Lifts the start of `terminals` until the goal is reached, and sends a flow of 1 there.
fn route(
    alloc: Global,
    network: Network,
    flow: &mut Vec<u32>,
    potentials: &mut Vec<u64>,
    terminals: Terminals,
) -> Result<(), AllocError>
    requires graph { IsGraph (length potentials.old.items) network.links.now }
    requires incidence { IsIncidence network.links.now (length potentials.old.items) network.incidence.now }
    requires flows { length flow.old.items ≡ length network.links.now }
    requires kept { AreKept network.links.now (length network.links.now) flow.old.items potentials.old.items }
    requires start { terminals.start < length potentials.old.items }
    requires goal { terminals.goal < length potentials.old.items }
    requires times { (x : ℕ) → slice_index potentials.old.items x ≤ 2 ^ 61 }
    requires small { (k : ℕ) → slice_index flow.old.items k ≤ 2 ^ 16 }
    requires spans { (f t : List ℕ) → AreKept network.links.now (length network.links.now) f t → slice_index t terminals.start ≤ slice_index t terminals.goal }
    ensures { OnOk result (IsRouted network.entry.links.now flow.old.items potentials.old.items terminals.start terminals.goal flow.new.items potentials.new.items) }
{
    let need = potentials[terminals.goal] - potentials[terminals.start] + 1;
    let raise = Raise {
        terminals,
        need,
        count: network.links.len(),
    };
    match lift(alloc, network, flow, potentials, raise)? {
        None => unreachable!(),
        Some(reached) => {
            let priced = Priced {
                links: network.links,
                potentials: potentials.as_slice(),
            };
            let path = Path {
                reached: &reached,
                goal: terminals.goal,
            };
            push(priced, flow, path, 1);
        }
    }
    Ok(())
}

/// Routes the value of node `u`, unless it is routed already.
fn route_node(
    alloc: Global,
    network: Network,
    routing: &mut Routing,
    u: usize,
    count: usize,
) -> Result<(), AllocError>
    requires graph { IsGraph (network.n + network.n + network.n) network.links.now }
    requires incidence { IsIncidence network.links.now (network.n + network.n + network.n) network.incidence.now }
    requires routing { IsRouting network.n network.links.now count routing.old.flow.items routing.old.potentials.items routing.old.routed.items }
    requires few { count < 2 ^ 14 }
    requires span { IsSpan network.n network.links.now u }
    ensures { OnOk result (IsRoutedToo network.entry.n network.entry.links.now count u routing.new.flow.items routing.new.potentials.items routing.old.routed.items routing.new.routed.items) }
{
    let n = network.n;
    if !routing.routed[u] {
        let terminals = Terminals {
            start: n + u,
            goal: n + n + u,
        };
        route(
            alloc,
            network,
            &mut routing.flow,
            &mut routing.potentials,
            terminals,
        )?;
        routing.routed[u] = true;
    }
    Ok(())
}

/// Routes the values of all nodes that a stay leaves.
pub(crate) fn route_all(
    alloc: Global,
    network: Network,
    routing: &mut Routing,
) -> Result<(), AllocError>
    requires graph { IsGraph (network.n + network.n + network.n) network.links.now }
    requires incidence { IsIncidence network.links.now (network.n + network.n + network.n) network.incidence.now }
    requires routing { IsRouting network.n network.links.now 0 routing.old.flow.items routing.old.potentials.items routing.old.routed.items }
    requires spans { HasSpans network.n network.links.now }
    ensures routing { OnOk result (IsRouting network.entry.n network.entry.links.now (length network.entry.links.now) routing.new.flow.items routing.new.potentials.items routing.new.routed.items) }
    ensures all { OnOk result (AreRouted network.entry.n network.entry.links.now (length network.entry.links.now) routing.new.routed.items) }
{
    let links = network.links;
    let n = network.n;
    for k in 0..links.len() {
        if let Part::Stay(_, _) = links[k].part {
            let u = links[k].to - (n + n);
            route_node(alloc, network, routing, u, k)?;
        }
    }
    Ok(())
}

//! The search for a certificate of register pressure.
//!
//! A schedule only has to keep certain places of a network some cycles apart, and the stays of values add up to a sum
//! of distances between places: so the least sum is the greatest cost of a flow. The search is the out-of-kilter
//! method: first the links are kept one after another, and then the value of one node after another is routed, while
//! places are lifted together.
ghost use Rattle.std.specs.Prelude.{◌≡◌, ℕ, ◌+◌, ◌^◌, ◌<◌, ◌≤◌, IfOk, Some, length, slice_index};
ghost use Rattle.cg_model.specs.Kernel.{size};
ghost use Rattle.cg_bound_registers.specs.Sums.{table};
ghost use Rattle.cg_bound_flow.specs.Network.{IsGraph};
ghost use Rattle.cg_bound_flow.specs.Parts.{IsNetwork};
ghost use Rattle.cg_bound_flow.specs.Route.{IsSettled, IsRouting, AreRouted, HasSpans};
ghost use Rattle.cg_bound_flow.specs.Finish.{IsSchedule, IsFound, IsSound};

use crate::chains::{Network, incidence_of};
use crate::extract::certificate;
use crate::instances::Instance;
use crate::network::{Link, all_links};
use crate::push::{Path, Priced, push};
use crate::route::{Routing, route_all};
use crate::settle::{Blocked, keep_all};
use cg_bound_registers::{Pressure, Times, all_stays, count_registers};
use cg_recur::{Arch, Kernel, latencies_are_small};
use std::alloc::{AllocError, Global};

/// The result of a search.
#[derive(Drop)]
pub enum Outcome {
    /// A certificate that no legal mapping has the interval.
    Excluded(Pressure),
    /// Times with stays that fit in the registers: no certificate excludes the interval.
    Open(Times),
}

/// Returns the certificate of a closed chain of links of `priced` that can't all be kept. The flow on the chain is the
/// number of register slots plus 1.
fn recurrence(
    alloc: Global,
    instance: Instance,
    priced: Priced,
    flow: &mut Vec<u32>,
    blocked: &Blocked,
) -> Result<Pressure, AllocError>
    requires interval { instance.ii ≤ 64 }
    requires network { IsNetwork instance.arch.now instance.kernel.now (table instance.hops.now) instance.ii priced.links.now }
    requires graph { IsGraph (size instance.kernel.now + size instance.kernel.now + size instance.kernel.now) priced.links.now }
    requires flows { length flow.old.items ≡ length priced.links.now }
    requires idle { (k : ℕ) → slice_index flow.old.items k ≡ 0 }
    requires blocked { IsSettled priced.links.now flow.old.items (size instance.kernel.now + size instance.kernel.now + size instance.kernel.now) priced.potentials.now (Some blocked.now) }
    ensures { IfOk result (IsFound instance.entry.arch.now instance.entry.kernel.now (table instance.entry.hops.now) instance.entry.ii) }
{
    let links = priced.links;
    let _nodes = instance.kernel.nodes();
    let by = instance.ii * count_registers(instance.arch) as u32 + 1;
    let path = Path {
        reached: &blocked.reached,
        goal: links[blocked.link].from,
    };
    push(priced, flow, path, by);
    flow[blocked.link] += by;
    let found = certificate(alloc, instance.kernel, links, flow)?;
    Ok(found)
}

/// Returns the times of the `n` nodes, with the stays of the values that are routed.
fn schedule(alloc: Global, n: usize, routing: &Routing) -> Result<Times, AllocError>
    requires each { length routing.now.potentials.items ≡ n + n + n }
    requires marks { length routing.now.routed.items ≡ n }
    requires few { n ≤ 1024 }
    ensures { IfOk result (IsSchedule n routing.now.potentials.items routing.now.routed.items) }
{
    let at = &routing.potentials;
    let routed = &routing.routed;
    let mut time = Vec::new(alloc);
    let mut lasts = Vec::new(alloc);
    let mut longest = Vec::new(alloc);
    for w in 0..n {
        time.push(at[w])?;
        lasts.push(at[n + w].saturating_sub(at[w]))?;
        let stay = at[n + n + w].saturating_sub(at[n + w]);
        longest.push(if routed[w] { stay } else { 0 })?;
    }
    Ok(Times {
        time,
        lasts,
        longest,
    })
}

/// Returns the times of `routing` if their stays fit in the registers, and else the certificate of its flow.
fn decide(
    alloc: Global,
    instance: Instance,
    links: &[Link],
    routing: &Routing,
) -> Result<Outcome, AllocError>
    requires network { IsNetwork instance.arch.now instance.kernel.now (table instance.hops.now) instance.ii links.now }
    requires graph { IsGraph (size instance.kernel.now + size instance.kernel.now + size instance.kernel.now) links.now }
    requires routing { IsRouting (size instance.kernel.now) links.now (length links.now) routing.now.flow.items routing.now.potentials.items routing.now.routed.items }
    requires all { AreRouted (size instance.kernel.now) links.now (length links.now) routing.now.routed.items }
    ensures { IfOk result (IsSound instance.entry.arch.now instance.entry.kernel.now (table instance.entry.hops.now) instance.entry.ii) }
{
    let n = instance.kernel.nodes().len();
    let times = schedule(alloc, n, routing)?;
    let room = instance.ii as u128 * count_registers(instance.arch) as u128;
    if all_stays(&times, n as u32) <= room {
        return Ok(Outcome::Open(times));
    }
    Ok(Outcome::Excluded(certificate(alloc, instance.kernel, links, &routing.flow)?))
}

/// States that each of the numbers of registers `_hops` is less than 2^32; the call does nothing.
fn hops_are_words(_hops: &[u32])
    ensures { (k : ℕ) → slice_index _hops.now k < 2 ^ 32 }
{}

/// Returns the links of the network of `instance`, which are small.
fn whole_network(alloc: Global, instance: Instance) -> Result<Vec<Link>, AllocError>
    requires { instance.ii ≤ 64 }
    ensures network { IfOk result (λ v. IsNetwork instance.entry.arch.now instance.entry.kernel.now (table instance.entry.hops.now) instance.entry.ii v.items) }
    ensures graph { IfOk result (λ v. IsGraph (size instance.entry.kernel.now + size instance.entry.kernel.now + size instance.entry.kernel.now) v.items) }
    ensures spans { IfOk result (λ v. HasSpans (size instance.entry.kernel.now) v.items) }
{
    latencies_are_small(instance.arch);
    hops_are_words(instance.hops);
    let _units = instance.arch.units();
    let _nodes = instance.kernel.nodes();
    let links = all_links(alloc, instance)?;
    Ok(links)
}

/// Returns a certificate that no legal mapping has interval `ii`, or times that show that no certificate excludes it.
/// `hops` has three numbers per node: for each operand the least number of registers that a value crosses on its way
/// there.
pub fn find_pressure(
    alloc: Global,
    arch: &Arch,
    kernel: &Kernel,
    hops: &[u32],
    ii: u32,
) -> Result<Outcome, AllocError>
    requires interval { ii ≤ arch.now.contexts }
    ensures { IfOk result (IsSound arch.now kernel.now (table hops.now) ii) }
{
    let _contexts = arch.contexts();
    let instance = Instance {
        arch,
        kernel,
        hops,
        ii,
    };
    let n = kernel.nodes().len();
    let list = whole_network(alloc, instance)?;
    let links = list.as_slice();
    let incidence = incidence_of(alloc, links, n + n + n)?;
    let network = Network {
        links,
        incidence: &incidence,
        n,
    };
    let mut potentials = vec![in alloc; 0u64; n + n + n]?;
    let mut flow = vec![in alloc; 0u32; links.len()]?;
    if let Some(blocked) = keep_all(alloc, network, &flow, &mut potentials)? {
        let priced = Priced {
            links,
            potentials: potentials.as_slice(),
        };
        let found = recurrence(alloc, instance, priced, &mut flow, &blocked)?;
        return Ok(Outcome::Excluded(found));
    }
    let routed = vec![in alloc; false; n]?;
    let mut routing = Routing {
        flow,
        potentials,
        routed,
    };
    route_all(alloc, network, &mut routing)?;
    decide(alloc, instance, links, &routing)
}

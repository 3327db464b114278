//! Lifting places together, as far as links allow.
ghost use Rattle.std.specs.Prelude.{◌≡◌, ℕ, ◌+◌, ◌^◌, ◌<◌, ◌≤◌, IfOk, List, length, slice_index};
ghost use Rattle.cg_bound_flow.specs.Network.{IsGraph, AreKept, link};
ghost use Rattle.cg_bound_flow.specs.Chains.{begin_of, IsChain, IsIncidence};
ghost use Rattle.cg_bound_flow.specs.Reach.{IsLog};
ghost use Rattle.cg_bound_flow.specs.Lift.{LetsRise, IsRisen, IsLifted};

use crate::chains::Network;
use crate::reach::{Reached, Residual, Terminals, reach};
use std::alloc::{AllocError, Global};

/// The cut between the places that are reached and the others, in the network of the first `count` links.
#[derive(Clone, Copy)]
struct Cut<'a> {
    network: Network<'a>,
    count: usize,
    potentials: &'a [u64],
    reached: &'a Reached,
}

/// How a place is to be lifted: the start of `terminals` by `need` cycles, so that the first `count` links stay kept.
#[derive(Clone, Copy)]
pub(crate) struct Raise {
    pub terminals: Terminals,
    pub need: u64,
    pub count: usize,
}

/// Returns the number of cycles, up to `most`, by which link `k` lets the reached places of `cut` rise, if it is one of
/// the first `count`.
fn room_over(cut: Cut, k: usize, most: u64) -> u64
    requires graph { IsGraph (length cut.potentials.now) cut.network.links.now }
    requires times { (x : ℕ) → slice_index cut.potentials.now x ≤ 2 ^ 62 }
    requires each { length cut.reached.now.order.items ≡ length cut.potentials.now }
    requires open { k < cut.count → LetsRise cut.network.links.now cut.potentials.now cut.reached.now.order.items 1 k }
    requires known { k < length cut.network.links.now }
    requires some { 0 < most }
    ensures positive { 0 < result }
    ensures most { result ≤ most }
    ensures rises { k < cut.entry.count → LetsRise cut.entry.network.links.now cut.entry.potentials.now cut.entry.reached.now.order.items result k }
{
    let Cut {
        network,
        count,
        potentials,
        reached,
    } = cut;
    let link = network.links[k];
    if k < count && reached.order[link.from] != 0 && reached.order[link.to] == 0 {
        let gap = (potentials[link.to] + link.loss) - (potentials[link.from] + link.gain);
        if gap < most {
            return gap;
        }
    }
    most
}

/// Returns the number of cycles, up to `most`, by which the links that begin at `place` let the reached places of `cut`
/// rise.
fn room_at(cut: Cut, place: usize, most: u64) -> u64
    requires graph { IsGraph (length cut.potentials.now) cut.network.links.now }
    requires chain { IsChain (begin_of cut.network.links.now) (length cut.potentials.now) (length cut.network.links.now) cut.network.incidence.now.begins }
    requires times { (x : ℕ) → slice_index cut.potentials.now x ≤ 2 ^ 62 }
    requires known { cut.count ≤ length cut.network.links.now }
    requires each { length cut.reached.now.order.items ≡ length cut.potentials.now }
    requires open { (k : ℕ) → k < cut.count → LetsRise cut.network.links.now cut.potentials.now cut.reached.now.order.items 1 k }
    requires place { place < length cut.potentials.now }
    requires some { 0 < most }
    ensures positive { 0 < result }
    ensures most { result ≤ most }
    ensures rises { (k : ℕ) → k < cut.entry.count → (link cut.entry.network.links.now k).from ≡ place → LetsRise cut.entry.network.links.now cut.entry.potentials.now cut.entry.reached.now.order.items result k }
{
    let begins = &cut.network.incidence.begins;
    let mut by = most;
    let mut more = begins.last[place];
    while more > 0 {
        let k = more - 1;
        by = room_over(cut, k, by);
        more = begins.earlier[k];
    }
    by
}

/// Returns the number of cycles, up to `need`, by which the first `count` links let the reached places of `cut` rise.
fn room(cut: Cut, need: u64) -> u64
    requires graph { IsGraph (length cut.potentials.now) cut.network.links.now }
    requires incidence { IsIncidence cut.network.links.now (length cut.potentials.now) cut.network.incidence.now }
    requires times { (x : ℕ) → slice_index cut.potentials.now x ≤ 2 ^ 62 }
    requires known { cut.count ≤ length cut.network.links.now }
    requires log { (flow : List ℕ) × IsLog cut.network.links.now flow cut.potentials.now cut.reached.now.steps.items cut.reached.now.order.items }
    requires open { (k : ℕ) → k < cut.count → LetsRise cut.network.links.now cut.potentials.now cut.reached.now.order.items 1 k }
    requires some { 0 < need }
    ensures positive { 0 < result }
    ensures most { result ≤ need }
    ensures rises { (k : ℕ) → k < cut.entry.count → LetsRise cut.entry.network.links.now cut.entry.potentials.now cut.entry.reached.now.order.items result k }
{
    let reached = cut.reached;
    let mut by = need;
    for i in 0..reached.steps.len() {
        let place = reached.steps[i].place;
        by = room_at(cut, place, by);
    }
    by
}

/// Increases the potentials of the places of `order` by `by` cycles.
fn rise(potentials: &mut Vec<u64>, order: &[usize], by: u64)
    requires each { length order.now ≡ length potentials.old.items }
    requires small { (x : ℕ) → 0 < slice_index order.now x → slice_index potentials.old.items x + by ≤ 2 ^ 62 }
    ensures risen { IsRisen order.now potentials.old.items by potentials.new.items }
    ensures each { length potentials.new.items ≡ length potentials.old.items }
{
    for x in 0..order.len() {
        if order[x] != 0 {
            potentials[x] += by;
        }
    }
}

/// Lifts the start of `raise`, with all places that have to rise with it so that links stay kept. It ends early, with the
/// reached places, once the goal is one of them.
pub(crate) fn lift(
    alloc: Global,
    network: Network,
    flow: &[u32],
    potentials: &mut Vec<u64>,
    raise: Raise,
) -> Result<Option<Reached>, AllocError>
    requires graph { IsGraph (length potentials.old.items) network.links.now }
    requires incidence { IsIncidence network.links.now (length potentials.old.items) network.incidence.now }
    requires flows { length flow.now ≡ length network.links.now }
    requires known { raise.count ≤ length network.links.now }
    requires kept { AreKept network.links.now raise.count flow.now potentials.old.items }
    requires start { raise.terminals.start < length potentials.old.items }
    requires goal { raise.terminals.goal < length potentials.old.items }
    requires times { (x : ℕ) → slice_index potentials.old.items x ≤ 2 ^ 61 }
    requires near { slice_index potentials.old.items raise.terminals.start + raise.need ≤ slice_index potentials.old.items raise.terminals.goal + 2 ^ 33 }
    ensures { IfOk result (IsLifted network.entry.links.now raise.count flow.now potentials.old.items raise.terminals.start raise.terminals.goal raise.need potentials.new.items) }
{
    let Raise {
        terminals,
        need,
        count,
    } = raise;
    let mut left = need;
    while left > 0 {
        let residual = Residual {
            network,
            count,
            flow,
            potentials: potentials.as_slice(),
        };
        let reached = reach(alloc, residual, terminals)?;
        if reached.order[terminals.goal] != 0 {
            return Ok(Some(reached));
        }
        let cut = Cut {
            network,
            count,
            potentials: potentials.as_slice(),
            reached: &reached,
        };
        let by = room(cut, left);
        rise(potentials, &reached.order, by);
        left -= by;
    }
    Ok(None)
}

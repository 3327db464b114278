//! The places that are reached from one place by tight links.
ghost use Rattle.std.specs.Prelude.{◌≡◌, ℕ, ◌^◌, ◌<◌, ◌≤◌, IfOk, OnOk, length, slice_index};
ghost use Rattle.cg_bound_flow.specs.Network.{IsGraph};
ghost use Rattle.cg_bound_flow.specs.Chains.{IsLinked, IsIncidence};
ghost use Rattle.cg_bound_flow.specs.Reach.{step, IsLog, IsLonger, IsVisited, IsFollowed, IsWorked, IsReached};

use crate::chains::{Chain, Network};
use std::alloc::{AllocError, Global};

/// A place that is reached over a link from the place of an earlier step.
#[derive(Clone, Copy, Drop)]
pub(crate) struct Step {
    pub place: usize,
    pub link: usize,
    /// Whether the link is taken from its end to its beginning.
    pub back: bool,
    /// The number of the earlier step.
    pub before: usize,
}

/// The reached places.
#[derive(Drop)]
pub(crate) struct Reached {
    /// One step for each reached place.
    pub steps: Vec<Step>,
    /// For each place, 1 plus the number of its step; 0 if it isn't reached.
    pub order: Vec<usize>,
}

/// The residual network of a flow: the first `count` links, forward, and backward those with a flow. By its potentials
/// some of them are tight.
#[derive(Clone, Copy)]
pub(crate) struct Residual<'a> {
    pub network: Network<'a>,
    pub count: usize,
    pub flow: &'a [u32],
    pub potentials: &'a [u64],
}

/// The place at which a path begins, and the one to which it is to lead.
#[derive(Clone, Copy)]
pub(crate) struct Terminals {
    pub start: usize,
    pub goal: usize,
}

/// Adds a step over link `k` of `residual` to `reached`, if it is one of the first `count`, is tight and leads to a place
/// that isn't reached.
fn visit(residual: Residual, k: usize, reached: &mut Reached) -> Result<(), AllocError>
    requires graph { IsGraph (length residual.potentials.now) residual.network.links.now }
    requires times { (x : ℕ) → slice_index residual.potentials.now x ≤ 2 ^ 62 }
    requires flows { length residual.flow.now ≡ length residual.network.links.now }
    requires known { k < length residual.network.links.now }
    requires log { IsLog residual.network.links.now residual.flow.now residual.potentials.now reached.old.steps.items reached.old.order.items }
    ensures { OnOk result (IsVisited residual.entry.network.links.now residual.entry.count residual.entry.flow.now residual.entry.potentials.now reached.old.steps.items reached.old.order.items reached.new.steps.items reached.new.order.items k) }
{
    let Residual {
        network,
        count,
        flow,
        potentials,
    } = residual;
    if k >= count {
        return Ok(());
    }
    let link = network.links[k];
    if potentials[link.from] + link.gain == potentials[link.to] + link.loss {
        let from = reached.order[link.from];
        let to = reached.order[link.to];
        let next = reached.steps.len();
        if from > 0 && to == 0 {
            reached.steps.push(Step {
                place: link.to,
                link: k,
                back: false,
                before: from - 1,
            })?;
            reached.order[link.to] = next + 1;
        } else if to > 0 && from == 0 && flow[k] > 0 {
            reached.steps.push(Step {
                place: link.from,
                link: k,
                back: true,
                before: to - 1,
            })?;
            reached.order[link.from] = next + 1;
        }
    }
    Ok(())
}

/// Visits the links of `place` in `chain`.
fn follow(
    residual: Residual,
    chain: &Chain,
    place: usize,
    reached: &mut Reached,
) -> Result<(), AllocError>
    requires graph { IsGraph (length residual.potentials.now) residual.network.links.now }
    requires times { (x : ℕ) → slice_index residual.potentials.now x ≤ 2 ^ 62 }
    requires flows { length residual.flow.now ≡ length residual.network.links.now }
    requires chain { IsLinked (length residual.potentials.now) (length residual.network.links.now) chain.now }
    requires place { place < length residual.potentials.now }
    requires log { IsLog residual.network.links.now residual.flow.now residual.potentials.now reached.old.steps.items reached.old.order.items }
    ensures { OnOk result (IsFollowed residual.entry.network.links.now residual.entry.count residual.entry.flow.now residual.entry.potentials.now chain.now place reached.old.steps.items reached.old.order.items reached.new.steps.items reached.new.order.items 0) }
{
    let mut more = chain.last[place];
    while more > 0 {
        let k = more - 1;
        visit(residual, k, reached)?;
        more = chain.earlier[k];
    }
    Ok(())
}

/// Visits the links that begin or end at the place of step `i`.
fn spread(residual: Residual, i: usize, reached: &mut Reached) -> Result<(), AllocError>
    requires graph { IsGraph (length residual.potentials.now) residual.network.links.now }
    requires incidence { IsIncidence residual.network.links.now (length residual.potentials.now) residual.network.incidence.now }
    requires times { (x : ℕ) → slice_index residual.potentials.now x ≤ 2 ^ 62 }
    requires flows { length residual.flow.now ≡ length residual.network.links.now }
    requires log { IsLog residual.network.links.now residual.flow.now residual.potentials.now reached.old.steps.items reached.old.order.items }
    requires step { i < length reached.old.steps.items }
    ensures log { OnOk result (IsLog residual.entry.network.links.now residual.entry.flow.now residual.entry.potentials.now reached.new.steps.items reached.new.order.items) }
    ensures longer { OnOk result (IsLonger reached.old.steps.items reached.old.order.items reached.new.steps.items reached.new.order.items) }
    ensures worked { OnOk result (IsWorked residual.entry.network.links.now residual.entry.count residual.entry.flow.now residual.entry.potentials.now reached.new.order.items (step reached.old.steps.items i).place) }
{
    let place = reached.steps[i].place;
    let incidence = residual.network.incidence;
    follow(residual, &incidence.begins, place, reached)?;
    follow(residual, &incidence.ends, place, reached)?;
    Ok(())
}

/// Returns the places that are reached from the start of `terminals` by those links of `residual` that are tight. Once
/// the goal is reached, others may be left out.
pub(crate) fn reach(
    alloc: Global,
    residual: Residual,
    terminals: Terminals,
) -> Result<Reached, AllocError>
    requires graph { IsGraph (length residual.potentials.now) residual.network.links.now }
    requires incidence { IsIncidence residual.network.links.now (length residual.potentials.now) residual.network.incidence.now }
    requires times { (x : ℕ) → slice_index residual.potentials.now x ≤ 2 ^ 62 }
    requires flows { length residual.flow.now ≡ length residual.network.links.now }
    requires known { residual.count ≤ length residual.network.links.now }
    requires start { terminals.start < length residual.potentials.now }
    requires goal { terminals.goal < length residual.potentials.now }
    ensures { IfOk result (IsReached residual.entry.network.links.now residual.entry.count residual.entry.flow.now residual.entry.potentials.now terminals.start terminals.goal) }
{
    let mut order = vec![in alloc; 0usize; residual.potentials.len()]?;
    let mut steps = Vec::new(alloc);
    steps.push(Step {
        place: terminals.start,
        link: 0,
        back: false,
        before: 0,
    })?;
    order[terminals.start] = 1;
    let mut reached = Reached { steps, order };
    let mut done = 0;
    while done < reached.steps.len() {
        if reached.order[terminals.goal] != 0 {
            return Ok(reached);
        }
        spread(residual, done, &mut reached)?;
        done += 1;
    }
    Ok(reached)
}

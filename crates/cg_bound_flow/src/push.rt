//! Sending flow along steps.
ghost use Rattle.std.specs.Prelude.{◌≡◌, ℕ, ◌+◌, ◌^◌, ◌<◌, ◌≤◌, length, slice_index};
ghost use Rattle.cg_bound_flow.specs.Reach.{IsLog, step};
ghost use Rattle.cg_bound_flow.specs.Push.{IsPushed};

use crate::network::Link;
use crate::reach::Reached;

/// The links of a network, with the potential of each place.
#[derive(Clone, Copy)]
pub(crate) struct Priced<'a> {
    pub links: &'a [Link],
    pub potentials: &'a [u64],
}

/// The path from the place of the first step of `reached` to the place `goal`.
#[derive(Clone, Copy)]
pub(crate) struct Path<'a> {
    pub reached: &'a Reached,
    pub goal: usize,
}

/// Increases by `by` the flow along `path`, over tight links of `priced`.
pub(crate) fn push(priced: Priced, flow: &mut Vec<u32>, path: Path, by: u32)
    requires flows { length flow.old.items ≡ length priced.links.now }
    requires log { IsLog priced.links.now flow.old.items priced.potentials.now path.reached.now.steps.items path.reached.now.order.items }
    requires goal { 0 < slice_index path.reached.now.order.items path.goal }
    requires small { (k : ℕ) → slice_index flow.old.items k + by < 2 ^ 32 }
    requires enough { (k : ℕ) → 0 < slice_index flow.old.items k → by ≤ slice_index flow.old.items k }
    ensures { IsPushed priced.entry.links.now priced.entry.potentials.now flow.old.items (step path.entry.reached.now.steps.items 0).place path.entry.goal by flow.new.items }
{
    let reached = path.reached;
    let mut i = reached.order[path.goal] - 1;
    while i > 0 {
        let step = reached.steps[i];
        if step.back {
            flow[step.link] -= by;
        } else {
            flow[step.link] += by;
        }
        i = step.before;
    }
}

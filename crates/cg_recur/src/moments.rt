//! The moments at which a node's time rises, kept in a log.
ghost use Rattle.std.specs.Prelude.{◌^◌, ◌<◌, length, IfOk};
ghost use Rattle.cg_recur.specs.Log.{IsWithin, IsLog, IsShallow, IsRelaxed, IsBegun, IsCounting, AreTimes};

use crate::Edge;
use std::alloc::{AllocError, Global};

/// A moment at which a node's time rose: the edge that raised it, the earlier moment before that edge, the new time,
/// and the number of edges up to it.
#[derive(Clone, Copy)]
pub(crate) struct Step {
    pub node: usize,
    pub edge: usize,
    pub before: usize,
    pub time: u64,
    pub depth: usize,
}

/// The effect of a visit of an edge on the log.
#[derive(Clone, Copy)]
pub(crate) enum Outcome {
    /// None: the edge requires no more than the times give.
    Same,
    /// The time of its target rose.
    Raised,
    /// The time of its target rose, by a chain whose number of edges is the number of nodes.
    Deep,
}

/// Returns the initial log: each of `nodes` nodes at time 0.
pub(crate) fn begin(alloc: Global, nodes: usize) -> Result<Vec<Step>, AllocError>
    ensures { IfOk result (λ v. IsBegun nodes v.items) }
{
    let mut log = Vec::new(alloc);
    for v in 0..nodes {
        log.push(Step {
            node: v,
            edge: 0,
            before: v,
            time: 0,
            depth: 0,
        })?;
    }
    Ok(log)
}

/// Returns the numbers below `nodes`, in order.
pub(crate) fn numbers(alloc: Global, nodes: usize) -> Result<Vec<usize>, AllocError>
    ensures { IfOk result (λ v. IsCounting nodes v.items) }
{
    let mut last = Vec::new(alloc);
    for v in 0..nodes {
        last.push(v)?;
    }
    Ok(last)
}

/// Raises the time of the target of edge `e` if the edge requires more at the interval `ii`.
pub(crate) fn relax(
    log: &mut Vec<Step>,
    last: &mut Vec<usize>,
    edges: &[Edge],
    e: usize,
    nodes: usize,
    ii: u32,
) -> Result<Outcome, AllocError>
    requires within { IsWithin edges.now nodes }
    requires good { IsLog edges.now ii nodes log.old.items last.old.items }
    requires shallow { IsShallow nodes log.old.items }
    requires small { nodes < 2 ^ 16 }
    requires edge { e < length edges.now }
    ensures { IfOk result (λ r. IsRelaxed edges.now ii nodes e log.old.items last.old.items log.new.items last.new.items r) }
{
    let edge = edges[e];
    let from = last[edge.source];
    let to = last[edge.target];
    let before = log[from];
    let held = log[to].time;
    let above = before.time + edge.latency as u64;
    let shift = ii as u64 * edge.distance as u64;
    if above <= held + shift {
        return Ok(Outcome::Same);
    }
    let depth = before.depth + 1;
    let at = log.len();
    log.push(Step {
        node: edge.target,
        edge: e,
        before: from,
        time: above - shift,
        depth,
    })?;
    last[edge.target] = at;
    if depth == nodes {
        Ok(Outcome::Deep)
    } else {
        Ok(Outcome::Raised)
    }
}

/// Returns the time of each node by `log`, where `last` has the latest moment of each.
pub(crate) fn times(
    alloc: Global,
    log: &[Step],
    last: &[usize],
    edges: &[Edge],
    ii: u32,
) -> Result<Vec<u32>, AllocError>
    requires good { IsLog edges.now ii (length last.now) log.now last.now }
    requires shallow { IsShallow (length last.now) log.now }
    requires small { length last.now < 2 ^ 16 }
    ensures { IfOk result (λ v. AreTimes log.now last.now v.items) }
{
    let mut times = Vec::new(alloc);
    for i in last {
        times.push(log[*i].time as u32)?;
    }
    Ok(times)
}

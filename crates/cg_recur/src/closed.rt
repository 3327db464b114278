//! The closed chain in a log with a moment that is too deep.
ghost use Rattle.std.specs.Prelude.{◌≡◌, ◌++◌, ◌-◌, ◌^◌, ◌<◌, ◌≤◌, length, IfOk, OnOk};
ghost use Rattle.cg_recur.specs.Log.{IsLog, IsDeep};
ghost use Rattle.cg_recur.specs.Numbered.{IsShownCycle};
ghost use Rattle.cg_recur.specs.Path.{IsPath, IsTrace, IsRepeat, IsCut, edges_between};

use crate::Edge;
use crate::moments::Step;
use std::alloc::{AllocError, Global};

/// Returns a closed chain that is too long for the interval `ii`, by the numbers of its edges, from its least node on.
pub(crate) fn cycle(
    alloc: Global,
    log: &[Step],
    edges: &[Edge],
    last: &[usize],
    ii: u32,
) -> Result<Vec<usize>, AllocError>
    requires good { IsLog edges.now ii (length last.now) log.now last.now }
    requires deep { IsDeep (length last.now) log.now }
    requires small { length last.now < 2 ^ 16 }
    ensures { IfOk result (λ v. IsShownCycle edges.now ii v.items) }
{
    let nodes = last.len();
    let path = trace(alloc, log, edges, last, ii)?;
    let (low, high) = repeat(log, &path, edges, ii, nodes);
    let at = cut(log, &path, edges, ii, nodes, low, high);
    let mut ids = Vec::new(alloc);
    push_between(&mut ids, log, &path, edges, ii, nodes, low, at)?;
    push_between(&mut ids, log, &path, edges, ii, nodes, at, high)?;
    Ok(ids)
}

/// Returns the last moments of `log`, backward from the last one: one more than the number of nodes.
fn trace(
    alloc: Global,
    log: &[Step],
    edges: &[Edge],
    last: &[usize],
    ii: u32,
) -> Result<Vec<usize>, AllocError>
    requires good { IsLog edges.now ii (length last.now) log.now last.now }
    requires deep { IsDeep (length last.now) log.now }
    requires small { length last.now < 2 ^ 16 }
    ensures { IfOk result (λ v. IsTrace edges.now ii (length last.now) log.now v.items) }
{
    let mut path = Vec::new(alloc);
    let mut at = log.len() - 1;
    path.push(at)?;
    for k in 0..last.len() {
        at = log[at].before;
        path.push(at)?;
    }
    Ok(path)
}

/// Returns the places on `path` where a node is met for the second time, and where it was met first: the lower place
/// first.
fn repeat(log: &[Step], path: &[usize], edges: &[Edge], ii: u32, nodes: usize) -> (usize, usize)
    requires path { IsTrace edges.now ii nodes log.now path.now }
    ensures { IsRepeat log.now path.now result.0 result.1 }
{
    for b in 0..path.len() {
        for a in 0..b {
            if log[path[a]].node == log[path[b]].node {
                return (a, b);
            }
        }
    }
    unreachable!()
}

/// Returns the place between `low` and `high` where the least node of the closed part of `path` is met.
fn cut(
    log: &[Step],
    path: &[usize],
    edges: &[Edge],
    ii: u32,
    nodes: usize,
    low: usize,
    high: usize,
) -> usize
    requires path { IsPath edges.now ii nodes log.now path.now }
    requires order { low < high }
    requires within { high < length path.now }
    ensures { IsCut log.now path.now low high result }
{
    let mut at = high;
    for k in low + 1..high {
        if log[path[k]].node < log[path[at]].node {
            at = k;
        }
    }
    at
}

/// Adds to `ids` the edges between the places `low` and `high` of `path`. The later moment is at the lower place.
fn push_between(
    ids: &mut Vec<usize>,
    log: &[Step],
    path: &[usize],
    edges: &[Edge],
    ii: u32,
    nodes: usize,
    low: usize,
    high: usize,
) -> Result<(), AllocError>
    requires path { IsPath edges.now ii nodes log.now path.now }
    requires order { low ≤ high }
    requires within { high ≤ length path.now }
    ensures { OnOk result (ids.new.items ≡ ids.old.items ++ edges_between log.now path.now low (high - low)) }
{
    let mut k = high;
    while k > low {
        k -= 1;
        ids.push(log[path[k]].edge)?;
    }
    Ok(())
}

//! The times at which a node may begin, given the nodes that are placed.

use cg_search_problem::{Places, Problem};

/// The number of cycles that is added to the span of times after the first one that a node's sources allow, where its
/// consumers are placed too.
const SLACK: u32 = 8;

/// A range of consecutive times.
#[derive(Clone, Copy, Drop)]
pub(crate) struct Window {
    /// The first one.
    pub(crate) first: u32,
    /// The last one.
    pub(crate) last: u32,
}

impl Window {
    /// Returns the number of times, at least one.
    pub(crate) fn width(&self) -> u32 {
        self.last.saturating_sub(self.first).saturating_add(1)
    }
}

/// Returns the times at which `node`, which is lifted, is tried.
pub(crate) fn window_of(problem: &Problem, places: &Places, node: u32) -> Window {
    let earliest = later(
        earliest_by_edges(problem, places, node),
        earliest_by_ties(problem, places, node),
    );
    let latest = sooner(
        latest_by_edges(problem, places, node),
        latest_by_ties(problem, places, node),
    );
    between(problem, node, earliest, latest)
}

/// Returns the times to be tried, given the `earliest` and the `latest` one where these exist.
fn between(problem: &Problem, node: u32, earliest: Option<u32>, latest: Option<u32>) -> Window {
    let span = problem.ii.saturating_add(problem.wiring.diameter());
    match (earliest, latest) {
        (None, None) => {
            let first = problem.earliest(node);
            times(first, first.saturating_add(problem.ii).saturating_sub(1))
        }
        (Some(earliest), None) => {
            let first = earliest.max(problem.earliest(node));
            times(first, first.saturating_add(span))
        }
        (None, Some(last)) => times(last.saturating_sub(span), last),
        (Some(first), Some(last)) => within(first, last, span.saturating_add(SLACK)),
    }
}

/// Returns the times around `first`, the earliest, and `last`, the latest time, which may be in the wrong order.
fn within(first: u32, last: u32, span: u32) -> Window {
    if first <= last {
        let after = last.saturating_add(1);
        return times(
            first.saturating_sub(1),
            after.min(first.saturating_add(span)),
        );
    }
    times(last.saturating_sub(1), first.saturating_add(1))
}

/// Returns the times from `first` to `last`.
fn times(first: u32, last: u32) -> Window {
    Window { first, last }
}

/// Returns the later of two times where both exist, else the existing one.
fn later(one: Option<u32>, other: Option<u32>) -> Option<u32> {
    match (one, other) {
        (Some(one), Some(other)) => Some(one.max(other)),
        (None, other) => other,
        (one, None) => one,
    }
}

/// Returns the sooner of two times where both exist, else the existing one.
fn sooner(one: Option<u32>, other: Option<u32>) -> Option<u32> {
    match (one, other) {
        (Some(one), Some(other)) => Some(one.min(other)),
        (None, other) => other,
        (one, None) => one,
    }
}

/// Returns when the last value of the placed sources of `node` is available.
fn earliest_by_edges(problem: &Problem, places: &Places, node: u32) -> Option<u32> {
    let mut earliest = None;
    for edge in problem.ins.of(node) {
        earliest = later(earliest, bound_by_source(problem, places, *edge));
    }
    earliest
}

/// Returns when the value of the source of `edge` leaves its unit, in the iteration of the target.
fn bound_by_source(problem: &Problem, places: &Places, edge: u32) -> Option<u32> {
    let facts = problem.edge(edge)?;
    let leaves = problem.leaves(places, facts)?;
    Some(leaves.saturating_sub(problem.turns(facts.distance)))
}

/// Returns the latest time at which `node` may begin so that its value arrives in time for the consumers that are
/// placed.
fn latest_by_edges(problem: &Problem, places: &Places, node: u32) -> Option<u32> {
    let mut latest = None;
    for edge in problem.outs.of(node) {
        latest = sooner(latest, bound_by_target(problem, places, *edge, node));
    }
    latest
}

/// Returns when `node`, the source of `edge`, has to begin for its target.
fn bound_by_target(problem: &Problem, places: &Places, edge: u32, node: u32) -> Option<u32> {
    let facts = problem.edge(edge)?;
    let arrives = problem.arrives(places, facts)?;
    Some(arrives.saturating_sub(problem.least_latency(node)))
}

/// Returns when the nodes that come before `node` have begun.
fn earliest_by_ties(problem: &Problem, places: &Places, node: u32) -> Option<u32> {
    let mut earliest = None;
    for tie in problem.ties.of(node) {
        earliest = later(earliest, bound_before(problem, places, *tie, node));
    }
    earliest
}

/// Returns when `node` may begin, if it is the target of the order edge `tie`.
fn bound_before(problem: &Problem, places: &Places, tie: u32, node: u32) -> Option<u32> {
    let edge = problem.order.get(tie as usize)?;
    if edge.to != node {
        return None;
    }
    let place = places.at(edge.from)?;
    let after = place.time.saturating_add(1);
    Some(after.saturating_sub(problem.turns(edge.distance)))
}

/// Returns the latest time at which `node` may begin for the nodes that come after it.
fn latest_by_ties(problem: &Problem, places: &Places, node: u32) -> Option<u32> {
    let mut latest = None;
    for tie in problem.ties.of(node) {
        latest = sooner(latest, bound_after(problem, places, *tie, node));
    }
    latest
}

/// Returns the latest time at which `node` may begin, if it is the source of the order edge `tie`.
fn bound_after(problem: &Problem, places: &Places, tie: u32, node: u32) -> Option<u32> {
    let edge = problem.order.get(tie as usize)?;
    if edge.from != node {
        return None;
    }
    let place = places.at(edge.to)?;
    let end = place.time.saturating_add(problem.turns(edge.distance));
    Some(end.saturating_sub(1))
}

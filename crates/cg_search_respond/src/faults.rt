//! The faults of a state.

use cg_search_state::State;
use std::alloc::{AllocError, Global};

/// The weight of a second node in a unit's slot.
pub(crate) const SHARED: u32 = 3;

/// The weight of a node without a place, of an edge without a route and of a violated order edge.
pub(crate) const LOST: u32 = 5;

/// Returns the faults of `state`: 0 where each node has a place and each edge a route, no two nodes begin on a unit in
/// a slot, no place is claimed twice and no order edge is violated.
pub(crate) fn faults(state: &State) -> u32 {
    let shared = state.places.excess().saturating_mul(SHARED);
    let missing = state
        .places
        .missing()
        .saturating_add(state.routes.missing());
    let lost = missing.saturating_add(broken(state)).saturating_mul(LOST);
    state
        .routes
        .excess()
        .saturating_add(shared)
        .saturating_add(lost)
}

/// Counts the order edges that are violated.
fn broken(state: &State) -> u32 {
    let mut sum: u32 = 0;
    let mut tie: u32 = 0;
    for _ in &state.problem.order {
        if state.is_broken(tie) {
            sum = sum.saturating_add(1);
        }
        tie = tie.saturating_add(1);
    }
    sum
}

/// Checks whether `node` takes part in a fault.
pub(crate) fn is_bad(state: &State, node: u32) -> bool {
    state.places.is_shared(node)
        || has_bad_edge(state, state.problem.ins.of(node))
        || has_bad_edge(state, state.problem.outs.of(node))
        || has_broken_tie(state, node)
}

/// Checks whether one of `edges` has no route, or one with a place that is claimed twice.
fn has_bad_edge(state: &State, edges: &[u32]) -> bool {
    for edge in edges {
        if state.routes.is_bad(*edge) {
            return true;
        }
    }
    false
}

/// Checks whether an order edge of `node` is violated.
fn has_broken_tie(state: &State, node: u32) -> bool {
    for tie in state.problem.ties.of(node) {
        if state.is_broken(*tie) {
            return true;
        }
    }
    false
}

/// Returns the nodes that take part in a fault, ascending.
pub(crate) fn bad_nodes(alloc: Global, state: &State) -> Result<Vec<u32>, AllocError> {
    let mut bad = Vec::new(alloc);
    for node in 0..state.problem.nodes {
        if is_bad(state, node) {
            bad.push(node)?;
        }
    }
    Ok(bad)
}

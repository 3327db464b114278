//! The costs of all candidates of a node, by the layers that lead to them from its placed neighbours.

use crate::estimates::{Estimates, Link};
use crate::known::{know_in, know_out};
use crate::windows::Window;
use cg_model::OrderEdge;
use cg_search_problem::{DataEdge, count};
use cg_search_state::{Extent, State, is_before, leaving_of, reading_of};
use std::alloc::{AllocError, Global};

/// Returns the costs of all candidates of `node`, which is lifted, at the times of `window`.
pub(crate) fn estimate(
    alloc: Global,
    state: &mut State,
    node: u32,
    window: Window,
) -> Result<Estimates, AllocError> {
    let problem = state.problem;
    let mut estimates = Estimates::of_places(alloc, state, node, window)?;
    for edge in problem.ins.of(node) {
        estimate_in(state, &mut estimates, *edge)?;
    }
    for edge in problem.outs.of(node) {
        estimate_out(state, &mut estimates, *edge)?;
    }
    estimates.add_fans();
    for tie in problem.ties.of(node) {
        estimate_tie(state, &mut estimates, *tie);
    }
    Ok(estimates)
}

/// Adds the routes of `edge`, which ends in the node, where its source is placed.
fn estimate_in(state: &mut State, estimates: &mut Estimates, edge: u32) -> Result<(), AllocError> {
    let problem = state.problem;
    if let Some(facts) = problem.edge(edge) {
        if let Some(from) = leaving_of(problem, &state.places, facts) {
            let turns = problem.turns(facts.distance);
            let latest = estimates.window.last.saturating_add(turns);
            let penalty = state.routes.penalty(edge);
            let extent = extent(state, from.at.time, latest, penalty);
            let number = know_in(&mut estimates.known, edge, facts.source)?;
            state.routes.spread_from(number, from, extent)?;
            let link = Link {
                number,
                time: from.at.time,
                turns,
                last: last_of(extent),
                penalty,
            };
            add_to_ports(state, estimates, link, facts);
        }
    }
    Ok(())
}

/// Returns the extent of routes of an edge that begin at the time `start` and end at `end` or sooner, where `penalty` is
/// the cost of having no route. None where the value comes too late.
fn extent(state: &State, start: u32, end: u32, penalty: u32) -> Option<Extent> {
    if end < start {
        return None;
    }
    Some(Extent {
        last: (end - start).min(state.problem.reach()),
        cap: penalty,
    })
}

/// Returns the last layer of `extent`; 0 where there is none.
fn last_of(extent: Option<Extent>) -> u32 {
    match extent {
        Some(extent) => extent.last,
        None => 0,
    }
}

/// Adds the routes of `edge` to the port of each unit that offers the node's operation.
fn add_to_ports(state: &State, estimates: &mut Estimates, link: Link, edge: DataEdge) {
    let problem = state.problem;
    let mut row: u32 = 0;
    for unit in problem.offers.of(estimates.node) {
        if let Some(host) = problem.host(*unit) {
            estimates.add_in(&state.routes, link, row, host.port(edge.arg));
        }
        row = row.saturating_add(1);
    }
}

/// Adds the routes of `edge`, which begins in the node, where its target is placed.
fn estimate_out(state: &mut State, estimates: &mut Estimates, edge: u32) -> Result<(), AllocError> {
    let problem = state.problem;
    if let Some(facts) = problem.edge(edge) {
        if let Some(to) = reading_of(problem, &state.places, facts) {
            let latency = problem.least_latency(estimates.node);
            let soonest = estimates.window.first.saturating_add(latency);
            let penalty = state.routes.penalty(edge);
            let extent = extent(state, soonest, to.time, penalty);
            let number = know_out(&mut estimates.known, edge, facts.source)?;
            state.routes.spread_to(number, to, extent)?;
            let link = Link {
                number,
                time: to.time,
                turns: 0,
                last: last_of(extent),
                penalty,
            };
            add_from_outs(state, estimates, link);
        }
    }
    Ok(())
}

/// Adds the routes of an edge from the out of each unit that offers the node's operation.
fn add_from_outs(state: &State, estimates: &mut Estimates, link: Link) {
    let problem = state.problem;
    let mut row: u32 = 0;
    for unit in problem.offers.of(estimates.node) {
        if let Some(host) = problem.host(*unit) {
            estimates.add_out(&state.routes, link, row, host);
        }
        row = row.saturating_add(1);
    }
}

/// Adds the penalty of the order edge `tie` where it is violated.
fn estimate_tie(state: &State, estimates: &mut Estimates, tie: u32) {
    let problem = state.problem;
    let node = estimates.node;
    let rows = count(problem.offers.of(node));
    let penalty = state.tie_penalty(tie);
    if let Some(edge) = problem.order.get(tie as usize).copied() {
        for column in 0..estimates.window.width() {
            let time = estimates.window.first.saturating_add(column);
            if breaks(state, edge, node, time) {
                estimates.add_column(rows, column, penalty);
            }
        }
    }
}

/// Checks whether the order edge `edge` is violated where `node`, one of its nodes, which is lifted, begins at `time`.
fn breaks(state: &State, edge: OrderEdge, node: u32, time: u32) -> bool {
    let turns = state.problem.turns(edge.distance);
    match (state.places.at(edge.from), state.places.at(edge.to)) {
        (Some(before), None) => edge.to == node && is_before(time, turns, before.time),
        (None, Some(after)) => edge.from == node && is_before(after.time, turns, time),
        _ => false,
    }
}

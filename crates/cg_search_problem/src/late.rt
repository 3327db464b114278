//! The latest times of nodes.

use crate::lists::number_at;
use crate::problem::DataEdge;
use cg_model::OrderEdge;
use std::alloc::{AllocError, Global};

/// The dependences between nodes at an interval.
#[derive(Clone, Copy)]
pub(crate) struct Dependences<'a> {
    /// The interval in cycles.
    pub(crate) ii: u32,
    /// The data edges.
    pub(crate) edges: &'a [DataEdge],
    /// The order edges.
    pub(crate) order: &'a [OrderEdge],
    /// The least latency of each node's operation.
    pub(crate) quickest: &'a [u32],
}

impl<'a> Dependences<'a> {
    /// Returns the latest time of each node at which no node is later than the last of the earliest times `early`.
    pub(crate) fn latest(&self, alloc: Global, early: &[u32]) -> Result<Vec<u32>, AllocError> {
        let mut late = vec![in alloc; last_of(early); early.len()]?;
        for _ in 0..early.len().saturating_add(1) {
            self.pull_by_edges(&mut late);
            self.pull_by_order(&mut late);
        }
        Ok(late)
    }

    /// Makes the source of each data edge early enough for its target.
    fn pull_by_edges(&self, late: &mut [u32]) {
        for edge in self.edges {
            let end = begin_of(late, edge.target, self.turns(edge.distance));
            let latency = number_at(self.quickest, edge.source as usize);
            pull(late, edge.source, end.saturating_sub(latency));
        }
    }

    /// Makes the source of each order edge early enough for its target.
    fn pull_by_order(&self, late: &mut [u32]) {
        for edge in self.order {
            let end = begin_of(late, edge.to, self.turns(edge.distance));
            pull(late, edge.from, end.saturating_sub(1));
        }
    }

    /// Returns the number of cycles of `distance` iterations.
    fn turns(&self, distance: u32) -> u32 {
        self.ii.saturating_mul(distance)
    }
}

/// Returns the greatest of `times`, 0 where there is none.
fn last_of(times: &[u32]) -> u32 {
    let mut last: u32 = 0;
    for time in times {
        last = last.max(*time);
    }
    last
}

/// Returns the latest time of `node`, whose iteration begins `turns` cycles later.
fn begin_of(late: &[u32], node: u32, turns: u32) -> u32 {
    number_at(late, node as usize).saturating_add(turns)
}

/// Makes the latest time of `node` at most `time`.
fn pull(late: &mut [u32], node: u32, time: u32) {
    if let Some(latest) = late.get_mut(node as usize) {
        *latest = time.min(*latest);
    }
}

//! Layers that are kept, so that routes can be read out of them.

use cg_search_problem::{Problem, count};
use cg_search_router::{ENTRY_BYTES, Layers};
use std::alloc::{AllocError, Global};

/// The greatest number of bytes of all kept layers.
const MOST_BYTES: u64 = 300_000_000;

/// The direction in which layers are filled.
#[derive(Clone, Copy, Debug, PartialEq, Eq, Drop)]
pub(crate) enum Filling {
    /// From where a value begins or is already.
    Forward,
    /// From where a value is read.
    Backward,
}

/// Layers, and the direction in which they are filled.
#[derive(Drop)]
pub(crate) struct Buffer {
    /// The layers.
    pub(crate) layers: Layers,
    /// The direction in which they are filled.
    pub(crate) filling: Filling,
}

/// Layers by number: one for each edge of the node with the most edges, or fewer where memory doesn't allow that. All
/// further numbers share one buffer.
#[derive(Drop)]
pub(crate) struct Pool {
    kept: Vec<Buffer>,
    shared: Buffer,
}

impl Buffer {
    /// Returns a buffer of no layers.
    fn new(alloc: Global) -> Buffer {
        Buffer {
            layers: Layers::new(alloc),
            filling: Filling::Forward,
        }
    }
}

impl Pool {
    /// Returns a pool of no layers yet.
    pub(crate) fn new(alloc: Global, problem: &Problem) -> Result<Pool, AllocError> {
        let mut kept = Vec::new(alloc);
        for _ in 0..most_edges(problem).min(most_kept(problem)) {
            kept.push(Buffer::new(alloc))?;
        }
        Ok(Pool {
            kept,
            shared: Buffer::new(alloc),
        })
    }

    /// Checks whether buffer `number` keeps its layers until it is filled again itself.
    pub(crate) fn is_kept(&self, number: u32) -> bool {
        (number as usize) < self.kept.len()
    }

    /// Returns buffer `number`.
    #[inline]
    pub(crate) fn buffer(&self, number: u32) -> &Buffer {
        match self.kept.get(number as usize) {
            Some(buffer) => buffer,
            None => &self.shared,
        }
    }

    /// Returns buffer `number` for filling.
    pub(crate) fn buffer_mut(&mut self, number: u32) -> &mut Buffer {
        match self.kept.get_mut(number as usize) {
            Some(buffer) => buffer,
            None => &mut self.shared,
        }
    }
}

/// Returns the greatest number of edges of a node.
fn most_edges(problem: &Problem) -> u32 {
    let mut most: u32 = 0;
    for node in 0..problem.nodes {
        let ins = count(problem.ins.of(node));
        most = most.max(ins.saturating_add(count(problem.outs.of(node))));
    }
    most
}

/// Returns the number of buffers that fit into their memory, each with the greatest number of layers of a route.
fn most_kept(problem: &Problem) -> u32 {
    let layers = u64::from(problem.reach()).saturating_add(1);
    let entries = layers.saturating_mul(problem.wiring.resources() as u64);
    let bytes = entries.saturating_mul(ENTRY_BYTES).max(1);
    (MOST_BYTES / bytes) as u32
}

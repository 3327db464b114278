//! The edges of a node whose other ends are placed.

use cg_search_problem::count;
use std::alloc::AllocError;

/// A data edge of a node whose other end is placed.
#[derive(Clone, Copy, Drop)]
pub(crate) struct Known {
    /// The number of the edge.
    pub(crate) edge: u32,
    /// The node whose value it is.
    pub(crate) source: u32,
    /// The number of the layers that were searched for it.
    pub(crate) number: u32,
    /// Whether its route may be taken out of those layers: no edge before it has the same placed source.
    pub(crate) is_first: bool,
}

/// Adds `edge`, which goes from the placed node `source` into the node, to `known`. Returns the number of its layers.
pub(crate) fn know_in(known: &mut Vec<Known>, edge: u32, source: u32) -> Result<u32, AllocError> {
    let is_first = !has_source(known.as_slice(), source);
    know(known, edge, source, is_first)
}

/// Adds `edge`, which goes from the node `source` to a placed node, to `known`. Returns the number of its layers.
pub(crate) fn know_out(known: &mut Vec<Known>, edge: u32, source: u32) -> Result<u32, AllocError> {
    know(known, edge, source, true)
}

/// Adds `edge`, a value of `source`, to `known`. Returns the number of its layers.
fn know(known: &mut Vec<Known>, edge: u32, source: u32, is_first: bool) -> Result<u32, AllocError> {
    let number = count(known.as_slice());
    known.push(Known {
        edge,
        source,
        number,
        is_first,
    })?;
    Ok(number)
}

/// Checks whether one of the edges `known` is a value of `source`.
fn has_source(known: &[Known], source: u32) -> bool {
    for other in known {
        if other.source == source {
            return true;
        }
    }
    false
}

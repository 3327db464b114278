//! Least paths.
ghost use Rattle.std.specs.Prelude.{◌≡◌, ℕ, ◌<◌, List, length, IfOk, IfSome, IfNone};
ghost use Rattle.cg_route.specs.Least as spec;

use crate::search::{PathEnds, Search};
use cg_congestion::{Mrrg, Usage};
use std::alloc::{AllocError, Global};

/// The intervals in the length of the longest paths that are searched for.
const MOST_INTERVALS: u32 = 6;

/// The additional cycles in that length.
const MORE_CYCLES: u32 = 32;

/// Returns the path of least price for the value of a source from a resource, on which it is at `start`, to another, on
/// which it is to be at `end`; among paths of equal price the first in lexicographic order.
///
/// There is none if no path leads there in that time, if `end` is before `start`, or if it is more than six intervals
/// and 32 cycles after it.
pub fn least_path(
    alloc: Global,
    graph: &Mrrg,
    usage: &Usage,
    source: u32,
    start: u32,
    from: u32,
    to: u32,
    end: u32,
) -> Result<Option<Vec<u32>>, AllocError>
    requires arch { graph.now.arch ≡ usage.now.arch }
    requires interval { graph.now.interval ≡ usage.now.interval }
    requires from { from < length graph.now.arch.resources }
    requires to { to < length graph.now.arch.resources }
    ensures least { IfOk result (λ found. IfSome found (λ path. spec.IsLeastPath usage.now source (record { from = from; start = start; to = to; end = end }) path.items)) }
    ensures near { IfOk result (λ found. IfSome found (λ path. spec.AreNear usage.now.interval (record { from = from; start = start; to = to; end = end }))) }
    ensures none { IfOk result (λ found. IfNone found (spec.AreNear usage.now.interval (record { from = from; start = start; to = to; end = end }) → (path : List ℕ) → spec.IsTimedPath usage.now.arch (record { from = from; start = start; to = to; end = end }) path → ⊥)) }
{
    if end < start || end - start > MOST_INTERVALS * graph.interval() + MORE_CYCLES {
        return Ok(None);
    }
    let search = Search::new(alloc, graph, usage, source, PathEnds { from, to, end })?;
    let layers = search.layers(alloc, end - start)?;
    search.trace(alloc, &layers, end - start, from)
}

//! The test whether a mapping has the shape of a kernel.
ghost use Rattle.std.specs.Prelude.{◌≡◌, ◌↔◌, IfOk, IsTrue, map};
ghost use Rattle.cg_model.specs.Mapping.{IsShaped, end_of};
ghost use Rattle.cg_mapping.specs.Ends.{as_end};

use crate::ends::{EdgeOperand, ends_of};
use cg_model::{Kernel, Mapping, Route};
use std::alloc::{AllocError, Global};

/// Returns whether `mapping` has a place for each node of `kernel` and a route for each edge operand, in the order of
/// nodes and operands, as `print_mapping` requires.
pub fn has_shape(alloc: Global, kernel: &Kernel, mapping: &Mapping) -> Result<bool, AllocError>
    ensures { IfOk result (λ shaped. IsTrue shaped ↔ IsShaped kernel.now mapping.now) }
{
    let nodes = kernel.nodes();
    if mapping.places().len() != nodes.len() {
        return Ok(false);
    }
    let ends = ends_of(alloc, nodes)?;
    Ok(are_ends(&ends, mapping.routes()))
}

/// Returns whether `routes` end at the edge operands `ends`, one after the other.
fn are_ends(ends: &[EdgeOperand], routes: &[Route]) -> bool
    ensures { IsTrue result ↔ (map end_of routes.now ≡ map as_end ends.now) }
{
    if routes.len() != ends.len() {
        return false;
    }
    for (i, route) in routes.iter().enumerate() {
        if !is_end(ends[i], route) {
            return false;
        }
    }
    true
}

/// Returns whether `route` ends at the edge operand `end`.
fn is_end(end: EdgeOperand, route: &Route) -> bool
    ensures { IsTrue result ↔ (end_of route.now ≡ as_end end) }
{
    route.node as usize == end.node && route.arg as usize == end.arg
}

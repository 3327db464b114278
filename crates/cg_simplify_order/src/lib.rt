//! The order edges of a rewritten kernel, made anew: as few as order its accesses wherever those of the given kernel are.
#![tactic(auto)]

ghost use Rattle.std.specs.Prelude.{◌≡◌, IfOk, IfSome};
ghost use Rattle.cg_simplify_draft.specs.Rewritten.{IsRewritten};
ghost use Rattle.cg_simplify_order.specs.Needs.{AreMet, AreNeeded, StaysUnaliased};

mod chains;
mod check;
mod edges;
mod given;
mod matrix;
mod namesakes;
mod needs;
mod reduce;
mod rewriting;

use crate::check::meets;
use crate::edges::with_edges;
use crate::reduce::reduced;
use cg_model::{Kernel, MOST_ORDER_EDGES};
pub use given::GivenKernel;
pub use needs::all_needs;
pub use rewriting::Rewriting;
use std::alloc::{AllocError, Global};

/// Returns the nodes of `rewritten` with the order edges that its accesses need, so that they are ordered wherever
/// those of `given` are; None where that would be more than 4,096 edges.
pub fn ordered(
    alloc: Global,
    given: &GivenKernel,
    rewritten: &Kernel,
) -> Result<Option<Kernel>, AllocError>
    requires { IsRewritten given.now rewritten.now }
    ensures nodes { IfOk result (λ o. IfSome o (λ m. m.nodes ≡ rewritten.now.nodes)) }
    ensures needed { IfOk result (λ o. IfSome o (λ m. AreNeeded given.now rewritten.now m)) }
    ensures met { IfOk result (λ o. IfSome o (λ m. AreMet given.now rewritten.now m)) }
    ensures unaliased { IfOk result (λ o. IfSome o (λ m. StaysUnaliased given.now m)) }
{
    let needs = all_needs(alloc, given, rewritten)?;
    let edges = reduced(alloc, rewritten, &needs)?;
    if edges.len() > MOST_ORDER_EDGES {
        return Ok(None);
    }
    let kernel = with_edges(alloc, rewritten, edges)?;
    // that the chosen edges are enough is seen here, and not from how they were chosen
    if meets(alloc, &kernel, &needs)? {
        Ok(Some(kernel))
    } else {
        Ok(None)
    }
}

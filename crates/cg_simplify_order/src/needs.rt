//! Which accesses of a rewritten kernel have to come after which.
ghost use Rattle.std.specs.Prelude.{◌<◌, ◌≤◌, IfOk, OnOk};
ghost use Rattle.cg_model.specs.Kernel.{IsKernel, size};
ghost use Rattle.cg_simplify_draft.specs.Rewritten.{IsRewritten};
ghost use Rattle.cg_simplify_order.specs.Found.{Adds, AllPairs, AreAllNeeds, OnePair};

use crate::given::GivenKernel;
use crate::rewriting::Rewriting;
use cg_model::{Kernel, OrderEdge};
use std::alloc::{AllocError, Global};

/// Returns what has to come after what in `rewritten`, which `given` was rewritten into, as order edges, by source and
/// then by target.
pub fn all_needs(
    alloc: Global,
    given: &GivenKernel,
    rewritten: &Kernel,
) -> Result<Vec<OrderEdge>, AllocError>
    requires { IsRewritten given.now rewritten.now }
    ensures all { IfOk result (λ needs. AreAllNeeds given.now rewritten.now needs.items) }
    ensures given { IfOk result (λ needs. IsKernel given.now) }
    ensures rewritten { IfOk result (λ needs. IsKernel rewritten.now) }
{
    let rewriting = Rewriting::of(alloc, given, rewritten)?;
    let mut needs = Vec::new(alloc);
    for u in 0..rewritten.nodes().len() {
        add_row(&rewriting, u as u32, &mut needs)?;
    }
    Ok(needs)
}

/// Adds to `needs` what has to come after node `u`.
fn add_row(rewriting: &Rewriting, u: u32, needs: &mut Vec<OrderEdge>) -> Result<(), AllocError>
    requires u { u < size rewriting.now.rewritten }
    requires few { size rewriting.now.rewritten ≤ 1024 }
    requires valid { IsKernel rewriting.now.given }
    ensures { OnOk result (Adds rewriting.now.given rewriting.now.rewritten (AllPairs u) needs.old.items needs.new.items) }
{
    for v in 0..rewriting.size() {
        add_need(rewriting, u, v as u32, needs)?;
    }
    Ok(())
}

/// Adds to `needs` that node `v` has to come after node `u`, if it has to.
fn add_need(
    rewriting: &Rewriting,
    u: u32,
    v: u32,
    needs: &mut Vec<OrderEdge>,
) -> Result<(), AllocError>
    requires u { u < size rewriting.now.rewritten }
    requires v { v < size rewriting.now.rewritten }
    requires valid { IsKernel rewriting.now.given }
    ensures { OnOk result (Adds rewriting.now.given rewriting.now.rewritten (OnePair u v) needs.old.items needs.new.items) }
{
    if let Some(distance) = rewriting.need(u, v) {
        needs.push(OrderEdge {
            from: u,
            to: v,
            distance,
        })?;
    }
    Ok(())
}

//! A kernel simplified by all passes.
ghost use Rattle.std.specs.Prelude.{◌≤◌, IfOk};
ghost use Rattle.cg_model.specs.Kernel.{size};
ghost use Rattle.cg_simplify_draft.specs.Rewritten.{IsRewritten};
ghost use Rattle.cg_simplify.specs.Simplified.{IsSimplified};

use crate::merging::merge;
use crate::removal::dead;
use crate::restating::texts;
use crate::settle::operands;
use cg_model::{Kernel, copy_nodes};
use cg_simplify_draft::{Passed, composed};
use cg_simplify_order::{GivenKernel, ordered};
use cg_simplify_rotate::rotate;
use std::alloc::{AllocError, Global};

/// An end to the rounds, which come to rest before in all but contrived kernels.
const MOST_ROUNDS: u32 = 64;

/// What is kept of a kernel that could be simplified.
#[derive(Clone, Copy, Debug, PartialEq, Eq)]
pub struct Options {
    /// Whether copies are kept: a `const` node that copies another node, which an array has as a register.
    pub copies: bool,
    /// Whether equal nodes become one even where they depend on the turn alone, so that fewer nodes are left and their
    /// values have longer ways.
    pub share: bool,
}

/// Returns a kernel with at most the nodes of `kernel` that leaves the same memory and streams, as `options` says.
///
/// Its order edges are made anew. Where that would be more than 4,096, it is a copy of `kernel`.
pub fn simplify(alloc: Global, kernel: &Kernel, options: Options) -> Result<Kernel, AllocError>
    ensures { IfOk result (IsSimplified kernel.now) }
{
    composed();
    let given = GivenKernel::of(alloc, kernel)?;
    let rewritten = rewritten(alloc, &given, options)?;
    match ordered(alloc, &given, &rewritten)? {
        Some(simplified) => Ok(simplified),
        None => copy_of(alloc, kernel),
    }
}

/// Returns a copy of `kernel`.
fn copy_of(alloc: Global, kernel: &Kernel) -> Result<Kernel, AllocError>
    ensures { IfOk result (IsSimplified kernel.now) }
{
    composed();
    let nodes = copy_nodes(alloc, kernel.nodes())?;
    let order = Vec::from_slice(alloc, kernel.order())?;
    Ok(Kernel::new(nodes, order))
}

/// Returns `given` after rounds of all passes, as `options` says.
fn rewritten(alloc: Global, given: &GivenKernel, options: Options) -> Result<Kernel, AllocError>
    ensures rewritten { IfOk result (IsRewritten given.now) }
    ensures few { IfOk result (λ l. size l ≤ size given.now) }
{
    is_itself(given);
    let mut passed = round(alloc, given, given.kernel(), options)?;
    for _ in 1..MOST_ROUNDS {
        if !passed.changed {
            break;
        }
        passed = round(alloc, given, &passed.kernel, options)?;
    }
    Ok(passed.kernel)
}

/// States that `given` is a rewriting of itself.
fn is_itself(given: &GivenKernel)
    ensures { IsRewritten given.now given.now }
{
    composed();
    let _ = given.kernel().nodes();
}

/// Returns `kernel`, which `given` was rewritten into, after each pass once, as `options` says.
fn round(
    alloc: Global,
    given: &GivenKernel,
    kernel: &Kernel,
    options: Options,
) -> Result<Passed, AllocError>
    requires { IsRewritten given.now kernel.now }
    ensures rewritten { IfOk result (λ p. IsRewritten given.now p.kernel) }
    ensures few { IfOk result (λ p. size p.kernel ≤ size kernel.now) }
{
    composed();
    let live = dead(alloc, kernel)?;
    let settled = operands(alloc, &live.kernel, options.copies)?;
    let restated = texts(alloc, &settled.kernel)?;
    let merged = merge(alloc, given, &restated.kernel, options.share)?;
    let rotated = rotate(alloc, given, &merged.kernel)?;
    Ok(Passed {
        kernel: rotated.kernel,
        changed: live.changed
            || settled.changed
            || restated.changed
            || merged.changed
            || rotated.changed,
    })
}

//! The kernel of a loop body.
ghost use Rattle.std.specs.Prelude.{◌≡◌, ◌≤◌, Some, IfOk, IfErr, map};
ghost use Rattle.cg_loop_syntax.specs.declared.fault.Excess as excesses;
ghost use Rattle.cg_loop_syntax.specs.Body.{body_of};
ghost use Rattle.cg_loop_syntax.specs.Grouped.{stmt_of};
ghost use Rattle.cg_loop_laws.specs.Translate.{body_cost, loop_kernel_of};
ghost use Rattle.cg_loop.specs.Excess.{excess_of, IsKernelFault, GivesExcess};

use crate::cost::body_cost;
use crate::ordering::order_edges;
use crate::statements::body_code;
use cg_loop_syntax::{Excess, LoopBody, LoopFault};
use cg_model::{Kernel, MOST_NODES, MOST_ORDER_EDGES};
use std::alloc::Global;

/// Returns the kernel of the loop `body`: its nodes in the order of the text, and the order edges that its accesses to
/// arrays need.
pub fn loop_kernel(alloc: Global, body: &LoopBody) -> Result<Kernel, LoopFault>
    // The result is the kernel of the loop.
    ensures found { IfOk result (λ kernel. kernel ≡ loop_kernel_of (body_of body.now)) }
    // The fault is one that applies to the kernel.
    ensures fault { IfErr result (λ e. IsKernelFault e (loop_kernel_of (body_of body.now))) }
    // A kernel that is too large is refused, with the number of its nodes or order edges, unless memory runs out.
    ensures exact { (x : excesses.Excess) → excess_of (loop_kernel_of (body_of body.now)) ≡ Some x → GivesExcess x result }
{
    let size = body_cost(body.stmts.as_slice())?;
    if size > MOST_NODES {
        return Err(LoopFault::TooLarge(Excess::Nodes(size)));
    }
    small_kernel(alloc, body)
}

/// Returns the kernel of the loop `body`, which has no more nodes than a kernel may have.
fn small_kernel(alloc: Global, body: &LoopBody) -> Result<Kernel, LoopFault>
    requires { body_cost (map stmt_of body.now.stmts) ≤ 1024 }
    ensures found { IfOk result (λ kernel. kernel ≡ loop_kernel_of (body_of body.now)) }
    ensures fault { IfErr result (λ e. IsKernelFault e (loop_kernel_of (body_of body.now))) }
    ensures exact { (x : excesses.Excess) → excess_of (loop_kernel_of (body_of body.now)) ≡ Some x → GivesExcess x result }
{
    let decls = body.decls.as_slice();
    let code = body_code(alloc, decls, body.stmts.as_slice())?;
    let order = order_edges(alloc, decls, code.accesses())?;
    let count = order.len();
    if count > MOST_ORDER_EDGES {
        return Err(LoopFault::TooLarge(Excess::Order(count)));
    }
    Ok(Kernel::new(code.into_nodes(), order))
}

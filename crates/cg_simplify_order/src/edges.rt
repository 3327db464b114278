//! A kernel with other order edges.
ghost use Rattle.std.specs.Prelude.{◌≡◌, IfOk};
ghost use Rattle.cg_model.specs.Kernel.{IsOrder};
ghost use Rattle.cg_simplify_order.specs.Found.{reordered};

use cg_model::{Kernel, OrderEdge, copy_nodes};
use std::alloc::{AllocError, Global};

/// Returns a kernel of the nodes of `kernel` with the order edges `order`.
pub(crate) fn with_edges(
    alloc: Global,
    kernel: &Kernel,
    order: Vec<OrderEdge>,
) -> Result<Kernel, AllocError>
    requires { IsOrder (reordered kernel.now order.items) }
    ensures { IfOk result (λ k. k ≡ reordered kernel.now order.items) }
{
    let nodes = copy_nodes(alloc, kernel.nodes())?;
    Ok(Kernel::new(nodes, order))
}

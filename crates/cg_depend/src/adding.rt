//! Adds the order edges that a kernel's accesses need.
ghost use Rattle.std.specs.Prelude.{◌≡◌, ◌≢◌, ◌≤◌, ◌<◌, ◌+◌, ℕ, Err, IfOk, IfErr, length};
ghost use Rattle.cg_model.specs.Kernel.{IsKernel};
ghost use Rattle.cg_model.specs.Order.{IsUnaliased};
ghost use Rattle.cg_model.specs.Turns.{turns_left};
ghost use Rattle.cg_model.specs.Work.{Image};
ghost use Rattle.cg_depend.specs.Depend.{BeginsWith, IsDepend, NeedsOrder, with_order};

use crate::fault::DependFault;
use crate::gather::needed_edges;
use cg_model::{Kernel, MOST_ORDER_EDGES, OrderEdge, copy_nodes};
use std::alloc::{AllocError, Global};

/// A kernel with the order edges that its accesses need.
#[derive(Drop)]
pub struct DependDone {
    /// The kernel. Its order edges are the original ones, followed by the added ones.
    pub kernel: Kernel,
    /// The number of added edges.
    pub added: u32,
}

/// Returns a copy of `kernel` with the order edges that its accesses need in addition to its own: with these edges, no
/// run of at most 1,000,000 turns, on any image, has two unordered accesses to one word of which one is a store.
///
/// `docs/dependence.md` says which edges these are.
///
/// # Errors
///
/// `TooManyEdges` where the kernel would have more than 4,096 order edges.
pub fn depend(alloc: Global, kernel: &Kernel) -> Result<DependDone, DependFault>
    ensures done { IfOk result (λ d. IsDepend kernel.now d.kernel) }
    ensures added { IfOk result (λ d. length d.kernel.order ≡ length kernel.now.order + d.added) }
    ensures begins { IfOk result (λ d. BeginsWith kernel.now d.kernel) }
    ensures same { IfOk result (λ d. (n : ℕ) (image : Image) → turns_left d.kernel n image ≡ turns_left kernel.now n image) }
    ensures unaliased { IfOk result (λ d. (n : ℕ) (image : Image) → n ≤ 1000000 → IsUnaliased d.kernel n image) }
    // Unless memory runs out, it is refused exactly where there would be more than 4,096 order edges, with their
    // number.
    ensures many { (n : ℕ) → result ≡ Err (DependFault.TooManyEdges n) → NeedsOrder kernel.now n × (4096 < n) }
    ensures fits { IfOk result (λ d. (n : ℕ) → NeedsOrder kernel.now n → n ≤ 4096) }
    ensures few { IfOk result (λ d. length d.kernel.order ≤ 4096) }
{
    let needed = needed_edges(alloc, kernel)?;
    if needed.total > MOST_ORDER_EDGES {
        return Err(DependFault::TooManyEdges(needed.total));
    }
    Ok(with_order(alloc, kernel, needed.edges.as_slice())?)
}

/// Returns a copy of `kernel` with the edges `added` after its own.
fn with_order(alloc: Global, kernel: &Kernel, added: &[OrderEdge]) -> Result<DependDone, AllocError>
    requires valid { IsKernel (with_order kernel.now added.now) }
    requires few { length added.now ≤ 4096 }
    ensures kernel { IfOk result (λ d. d.kernel ≡ with_order kernel.now added.now) }
    ensures added { IfOk result (λ d. d.added ≡ length added.now) }
{
    let nodes = copy_nodes(alloc, kernel.nodes())?;
    let mut order = Vec::from_slice(alloc, kernel.order())?;
    order.extend_from_slice(added)?;
    Ok(DependDone {
        kernel: Kernel::new(nodes, order),
        added: added.len() as u32,
    })
}

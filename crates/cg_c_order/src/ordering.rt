//! Orders the accesses of a kernel.
ghost use Rattle.std.specs.Prelude.{◌≡◌, [], IfOk, Err, length};
ghost use Rattle.cg_model.specs.Kernel.{IsKernel};
ghost use Rattle.cg_c_order.specs.Accesses.{AreAccesses, AreOrdered, IsOrderedBy, NeedsMore, kernel_with};
ghost use Rattle.cg_c_order.specs.declared.ordering.OrderFault.TheVariants.{TooMany};

use crate::access::Access;
use crate::back::order_back;
use crate::draft::Draft;
use crate::forth::order_forth;
use crate::lookup::by_node;
use cg_model::{Kernel, Node};
use std::alloc::{AllocError, Global};
use thiserror::Error;

/// Why a kernel was not ordered.
#[derive(Clone, Copy, Debug, PartialEq, Eq, Error)]
pub enum OrderFault {
    #[error("memory ran out")]
    Memory,
    /// It would have more than 4,096 order edges.
    #[error("more than 4096 order edges")]
    TooMany,
}

impl From<AllocError> for OrderFault {
    ghost use Rattle.std.specs.Prelude.{◌≡◌};
    ghost use Rattle.cg_c_order.specs.declared.ordering.OrderFault.TheVariants.{Memory};

    ghost from_gives = { λ _ e. e ≡ Memory };

    fn from(_error: AllocError) -> OrderFault {
        OrderFault::Memory
    }
}

/// Returns a kernel of these `nodes` with the order edges that `accesses`, its accesses in program order, need.
///
/// # Errors
///
/// `TooMany` if these are more than 4,096.
pub fn ordered(alloc: Global, nodes: Vec<Node>, accesses: &[Access]) -> Result<Kernel, OrderFault>
    requires kernel { IsKernel (kernel_with nodes.items []) }
    requires accesses { AreAccesses (length nodes.items) accesses.now }
    ensures edges { IfOk result (IsOrderedBy nodes.items accesses.now) }
    ensures ordered { IfOk result (AreOrdered accesses.now) }
    ensures many { result ≡ Err TooMany → NeedsMore nodes.items accesses.now }
{
    let table = by_node(alloc, nodes.len(), accesses)?;
    let mut draft = Draft::new(alloc, nodes)?;
    order_forth(alloc, &table, &mut draft)?;
    let mut closing = draft.close(alloc)?;
    order_back(alloc, &table, &mut closing)?;
    Ok(closing.into_kernel())
}

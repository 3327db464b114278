//! Why no order edges were added.
ghost use Rattle.std.specs.Prelude.{◌≡◌, IfOk, string_bytes};
ghost use Rattle.cg_depend.specs.Texts.{depend_fault_text};

use std::alloc::{AllocError, Global};
use thiserror::Error;

/// Why no order edges were added to a kernel. The variant after `Memory` is Y1.
#[derive(Clone, Copy, Debug, PartialEq, Eq, Error)]
pub enum DependFault {
    #[error("memory ran out")]
    Memory,
    /// With the edges that its accesses need the kernel would have more than 4,096 order edges: their number.
    #[error("{0} order edges")]
    TooManyEdges(usize),
}

impl From<AllocError> for DependFault {
    ghost use Rattle.std.specs.Prelude.{◌≡◌};
    ghost use Rattle.cg_depend.specs.declared.fault.DependFault.TheVariants.{Memory};

    ghost from_gives = { λ _ e. e ≡ Memory };

    fn from(_error: AllocError) -> DependFault {
        DependFault::Memory
    }
}

/// Returns code, name and place of `fault`, for example `Y1 TooManyEdges order 4160`. Out of memory has none of them.
pub fn depend_fault_text(alloc: Global, fault: DependFault) -> Result<String, AllocError>
    ensures { IfOk result (λ s. string_bytes s ≡ depend_fault_text fault) }
{
    match fault {
        DependFault::Memory => Ok(String::new(alloc)),
        DependFault::TooManyEdges(count) => format!(in alloc; "Y1 TooManyEdges order {count}"),
    }
}

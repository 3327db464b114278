//! The report texts of the faults of runs.
ghost use Rattle.std.specs.Prelude.{◌≡◌, IfOk, string_bytes};
ghost use Rattle.cg_datapath.specs.Texts.{sim_fault_text};

use crate::fault::SimFault;
use std::alloc::{AllocError, Global};

/// Returns code, name and place of `fault`, as `S2 ImageTooLarge words 513`. Out of memory has none of them, and its
/// text is empty.
pub fn sim_fault_text(alloc: Global, fault: SimFault) -> Result<String, AllocError>
    ensures { IfOk result (λ s. string_bytes s ≡ sim_fault_text fault) }
{
    match fault {
        SimFault::Memory => Ok(String::new(alloc)),
        SimFault::TooManyTurns(count) => format!(in alloc; "S1 TooManyTurns turns {count}"),
        SimFault::ImageTooLarge(count) => format!(in alloc; "S2 ImageTooLarge words {count}"),
    }
}

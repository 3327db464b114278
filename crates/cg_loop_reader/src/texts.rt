//! The report texts of the faults of loop bodies.
ghost use Rattle.std.specs.Prelude.{◌≡◌, IfOk, string_bytes};
ghost use Rattle.cg_loop_reader.specs.FaultText as spec;

use cg_loop_syntax::{Excess, LoopFault};
use std::alloc::{AllocError, Global};

/// Returns code, name and place of `fault`, as `Q2 UnknownName byte 31`. Out of memory has none of them, and its text
/// is empty.
pub fn loop_fault_text(alloc: Global, fault: &LoopFault) -> Result<String, AllocError>
    ensures { IfOk result (λ s. string_bytes s ≡ spec.loop_fault_text fault.now) }
{
    match fault {
        LoopFault::Memory => Ok(String::new(alloc)),
        LoopFault::Text(place) => format!(in alloc; "Q1 Text byte {place}"),
        LoopFault::UnknownName(place) => format!(in alloc; "Q2 UnknownName byte {place}"),
        LoopFault::RepeatedName(place) => format!(in alloc; "Q3 RepeatedName byte {place}"),
        LoopFault::CarryAssign(place) => format!(in alloc; "Q4 CarryAssign byte {place}"),
        LoopFault::BadArray(place) => format!(in alloc; "Q5 BadArray byte {place}"),
        LoopFault::BadPort(place) => format!(in alloc; "Q6 BadPort byte {place}"),
        LoopFault::TooLarge(Excess::Nodes(count)) => format!(in alloc; "Q7 TooLarge nodes {count}"),
        LoopFault::TooLarge(Excess::Order(count)) => format!(in alloc; "Q7 TooLarge order {count}"),
    }
}

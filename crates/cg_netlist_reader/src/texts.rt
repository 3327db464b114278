//! Texts of faults of netlist texts, for reports.
ghost use Rattle.std.specs.Prelude.{◌≡◌, IfOk, string_bytes};
ghost use Rattle.cg_netlist_reader.specs.FaultText as spec;

use crate::fault::VerilogFault;
use std::alloc::{AllocError, Global};

/// Returns code, name and place of `fault`, as in `V2 UnknownCell cell 3`. Out of memory has no code and no place.
pub fn verilog_fault_text(alloc: Global, fault: &VerilogFault) -> Result<String, AllocError>
    ensures { IfOk result (λ s. string_bytes s ≡ spec.verilog_fault_text fault.now) }
{
    match fault {
        VerilogFault::Memory => Ok(String::new(alloc)),
        VerilogFault::Text(place) => format!(in alloc; "V1 Text byte {place}"),
        VerilogFault::UnknownCell(number) => format!(in alloc; "V2 UnknownCell cell {number}"),
        VerilogFault::UnknownNet(name) => {
            let name = name.as_str();
            format!(in alloc; "V3 UnknownNet net {name}")
        }
    }
}

//! Texts of faults of netlists, for reports.
ghost use Rattle.std.specs.Prelude.{◌≡◌, ◌++◌, IfOk, codes, flat_map, string_bytes};
ghost use Rattle.cg_gates.specs.Texts as spec;

use crate::fault::GateFault;
use cg_model::Name;
use std::alloc::{AllocError, Global};

/// Returns code, name and place of `fault`, as in `E2 PinNet cell 1`. Out of memory has no code and no place.
pub fn gate_fault_text(alloc: Global, fault: &GateFault) -> Result<String, AllocError>
    ensures { IfOk result (λ s. string_bytes s ≡ spec.gate_fault_text fault.now) }
{
    match fault {
        GateFault::Memory => Ok(String::new(alloc)),
        GateFault::DriverCount(net) => {
            let net = net.as_str();
            format!(in alloc; "E1 DriverCount net {net}")
        }
        GateFault::PinNet(cell) => format!(in alloc; "E2 PinNet cell {cell}"),
        GateFault::MuxLoop(nets) => loop_text(alloc, nets.as_slice()),
        GateFault::RepeatedInstance(cell) => format!(in alloc; "E4 RepeatedInstance cell {cell}"),
        GateFault::UnknownInstance(cell) => format!(in alloc; "E5 UnknownInstance cell {cell}"),
        GateFault::MissingUnit(unit) => {
            let unit = unit.as_str();
            format!(in alloc; "E6 MissingUnit unit {unit}")
        }
    }
}

/// Returns the names of a ring's `nets`, each after a blank.
fn loop_text(alloc: Global, nets: &[Name]) -> Result<String, AllocError>
    ensures { IfOk result (λ s. string_bytes s ≡ codes "E3 MuxLoop" ++ flat_map (λ net. codes " " ++ net) nets.now) }
{
    let mut text = String::from_str(alloc, "E3 MuxLoop")?;
    for net in nets {
        text.push_str(" ")?;
        text.push_str(net.as_str())?;
    }
    Ok(text)
}

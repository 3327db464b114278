//! The texts of mapping faults in reports.
ghost use Rattle.std.specs.Prelude.{◌≡◌, IfOk, string_bytes};
ghost use Rattle.cg_mapping.specs.Texts as spec;

use crate::fault::{Gap, MappingFault, MappingPlace};
use std::alloc::{AllocError, Global};

/// Returns code, name and place of `fault`, for example `P4 UnknownName places 2`. Out of memory has none of them.
pub fn mapping_fault_text(alloc: Global, fault: &MappingFault) -> Result<String, AllocError>
    ensures { IfOk result (λ s. string_bytes s ≡ spec.mapping_fault_text fault.now) }
{
    match fault {
        MappingFault::Memory => Ok(String::new(alloc)),
        MappingFault::NotJson => String::from_str(alloc, "P1 NotJson file"),
        MappingFault::WrongShape(place) => place_text(alloc, "P2 WrongShape", *place),
        MappingFault::UnknownKey(place) => place_text(alloc, "P3 UnknownKey", *place),
        MappingFault::UnknownName(place) => place_text(alloc, "P4 UnknownName", *place),
        MappingFault::TooLarge(place) => place_text(alloc, "P5 TooLarge", *place),
        MappingFault::Incomplete(gap) => gap_text(alloc, gap),
    }
}

fn place_text(alloc: Global, code: &str, place: MappingPlace) -> Result<String, AllocError>
    ensures { IfOk result (λ s. string_bytes s ≡ spec.place_text code.now place) }
{
    match place {
        MappingPlace::File => format!(in alloc; "{code} file"),
        MappingPlace::Place(number) => format!(in alloc; "{code} places {number}"),
        MappingPlace::Route(number) => format!(in alloc; "{code} routes {number}"),
    }
}

fn gap_text(alloc: Global, gap: &Gap) -> Result<String, AllocError>
    ensures { IfOk result (λ s. string_bytes s ≡ spec.gap_text gap.now) }
{
    match gap {
        Gap::Node(name) => {
            let name = name.as_str();
            format!(in alloc; "P6 Incomplete node {name}")
        }
        Gap::Arg(name, arg) => {
            let name = name.as_str();
            format!(in alloc; "P6 Incomplete arg {name} {arg}")
        }
    }
}

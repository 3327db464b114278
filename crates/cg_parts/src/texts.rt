//! The texts of architecture faults in reports.
ghost use Rattle.std.specs.Prelude.{◌≡◌, ◌++◌, IfOk, codes, string_bytes};
ghost use Rattle.cg_parts.specs.Texts as spec;

use crate::fault::{ArchFault, DriverPlace, HubPlace, NamePlace, TooLargePlace};
use cg_model::Name;
use std::alloc::{AllocError, Global};

/// Returns code, name and place of `fault`, for example `A3 RepeatedName element 1`. Out of memory has none of them.
pub fn arch_fault_text(alloc: Global, fault: &ArchFault) -> Result<String, AllocError>
    ensures { IfOk result (λ s. string_bytes s ≡ spec.arch_fault_text fault.now) }
{
    match fault {
        ArchFault::Memory => Ok(String::new(alloc)),
        ArchFault::TooLarge(place) => String::from_str(alloc, too_large_text(*place)),
        ArchFault::BadName(place) => bad_name_text(alloc, *place),
        ArchFault::RepeatedName(number) => element_text(alloc, "A3 RepeatedName", *number),
        ArchFault::UnknownDriver(place) => driver_text(alloc, "A4 UnknownDriver", place),
        ArchFault::PortDrives(place) => driver_text(alloc, "A5 PortDrives", place),
        ArchFault::ZeroDelayLoop(names) => loop_text(alloc, names.as_slice()),
        ArchFault::BadUnit(number) => element_text(alloc, "A7 BadUnit", *number),
        ArchFault::BadContexts(contexts) => {
            format!(in alloc; "A8 BadContexts contexts {contexts}")
        }
        ArchFault::HubIncomplete(place) => hub_text(alloc, place),
    }
}

fn too_large_text(place: TooLargePlace) -> &'static str
    ensures { result.now ≡ spec.too_large_text place }
{
    match place {
        TooLargePlace::Grid => "A1 TooLarge grid",
        TooLargePlace::Resources => "A1 TooLarge resources",
        TooLargePlace::Links => "A1 TooLarge links",
        TooLargePlace::Units => "A1 TooLarge units",
        TooLargePlace::Memory => "A1 TooLarge memory",
    }
}

fn bad_name_text(alloc: Global, place: NamePlace) -> Result<String, AllocError>
    ensures { IfOk result (λ s. string_bytes s ≡ spec.bad_name_text place) }
{
    match place {
        NamePlace::Architecture => String::from_str(alloc, "A2 BadName architecture"),
        NamePlace::Element(number) => element_text(alloc, "A2 BadName", number),
    }
}

fn element_text(alloc: Global, code: &str, number: usize) -> Result<String, AllocError>
    ensures { IfOk result (λ s. string_bytes s ≡ spec.element_text code.now number) }
{
    format!(in alloc; "{code} element {number}")
}

fn driver_text(alloc: Global, code: &str, place: &DriverPlace) -> Result<String, AllocError>
    ensures { IfOk result (λ s. string_bytes s ≡ spec.driver_text code.now place.now) }
{
    let element = place.element;
    let driver = place.name.as_str();
    format!(in alloc; "{code} element {element} driver {driver}")
}

/// Returns the names of a loop, each after a blank.
fn loop_text(alloc: Global, names: &[Name]) -> Result<String, AllocError>
    ensures { IfOk result (λ s. string_bytes s ≡ codes "A6 ZeroDelayLoop" ++ spec.spaced_names names.now) }
{
    let mut text = String::from_str(alloc, "A6 ZeroDelayLoop")?;
    for name in names {
        text.push_str(" ")?;
        text.push_str(name.as_str())?;
    }
    Ok(text)
}

fn hub_text(alloc: Global, place: &HubPlace) -> Result<String, AllocError>
    ensures { IfOk result (λ s. string_bytes s ≡ spec.hub_text place.now) }
{
    match place {
        HubPlace::Entry(name) => {
            let name = name.as_str();
            format!(in alloc; "A9 HubIncomplete hub {name}")
        }
        HubPlace::Link { from, to } => {
            let from = from.as_str();
            let to = to.as_str();
            format!(in alloc; "A9 HubIncomplete link {from} {to}")
        }
    }
}

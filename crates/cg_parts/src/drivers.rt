//! Drivers that name no resource, or a port.
ghost use Rattle.std.specs.Prelude.{◌≡◌, IfOk, flat_map};
ghost use Rattle.std.specs.Option.{option_copied};
ghost use Rattle.cg_parts.specs.Parts.{drivers_of};
ghost use Rattle.cg_parts.specs.Numbers.{IsNumbering};
ghost use Rattle.cg_parts.specs.Rules as spec;

use crate::entry::Entry;
use crate::fault::DriverPlace;
use crate::parts::{Element, Names};
use cg_model::{Kind, Name};
use cg_reading::{Numbers, number_in};
use std::alloc::{AllocError, Global};

/// Why a driver is at fault.
#[derive(Clone, Copy)]
pub enum DriverRule {
    /// It names no resource.
    UnknownDriver,
    /// It names a port.
    PortDrives,
}

/// Returns the first driver at fault in the lists of the elements.
pub(crate) fn first_wrong(
    alloc: Global,
    rule: DriverRule,
    elements: &[Element],
    resources: &[Entry],
    numbers: &Numbers,
) -> Result<Option<DriverPlace>, AllocError>
    requires { IsNumbering numbers.now resources.now }
    ensures { IfOk result (λ place. place ≡ spec.first_driver (spec.is_wrong rule resources.now) 0 elements.now) }
{
    for (number, element) in elements.iter().enumerate() {
        if let Some(name) = wrong_of(rule, element, resources, numbers) {
            let name = Name::copy_of(alloc, name.as_str())?;
            return Ok(Some(DriverPlace {
                element: number,
                name,
            }));
        }
    }
    Ok(None)
}

/// Returns the first driver at fault of an element.
fn wrong_of<'a>(
    rule: DriverRule,
    element: &'a Element,
    resources: &[Entry],
    numbers: &Numbers,
) -> Option<&'a Name>
    requires { IsNumbering numbers.now resources.now }
    ensures { option_copied result ≡ spec.first_such (spec.is_wrong rule resources.now) (drivers_of element.now) }
{
    match element {
        Element::Wire { drivers, .. } | Element::Register { drivers, .. } => {
            wrong_in(rule, drivers.as_slice(), resources, numbers)
        }
        Element::Unit { ports, .. } => wrong_in_ports(rule, ports.as_slice(), resources, numbers),
    }
}

/// Returns the first driver at fault of a unit's ports.
fn wrong_in_ports<'a>(
    rule: DriverRule,
    ports: &'a [Names],
    resources: &[Entry],
    numbers: &Numbers,
) -> Option<&'a Name>
    requires { IsNumbering numbers.now resources.now }
    ensures { option_copied result ≡ spec.first_such (spec.is_wrong rule resources.now) (flat_map (λ drivers. drivers) ports.now) }
{
    for drivers in ports {
        if let Some(name) = wrong_in(rule, drivers.as_slice(), resources, numbers) {
            return Some(name);
        }
    }
    None
}

/// Returns the first driver at fault of a list.
fn wrong_in<'a>(
    rule: DriverRule,
    drivers: &'a [Name],
    resources: &[Entry],
    numbers: &Numbers,
) -> Option<&'a Name>
    requires { IsNumbering numbers.now resources.now }
    ensures { option_copied result ≡ spec.first_such (spec.is_wrong rule resources.now) drivers.now }
{
    for name in drivers {
        if is_wrong(rule, name.as_str(), resources, numbers) {
            return Some(name);
        }
    }
    None
}

fn is_wrong(rule: DriverRule, name: &str, resources: &[Entry], numbers: &Numbers) -> bool
    requires { IsNumbering numbers.now resources.now }
    ensures { result ≡ spec.is_wrong rule resources.now name.now }
{
    match rule {
        DriverRule::UnknownDriver => number_in(numbers, name).is_none(),
        DriverRule::PortDrives => match number_in(numbers, name) {
            Some(number) => is_port(resources, number),
            None => false,
        },
    }
}

fn is_port(resources: &[Entry], number: usize) -> bool
    ensures { result ≡ spec.is_port_at resources.now number }
{
    match resources.get(number) {
        Some(resource) => matches!(resource.kind, Kind::Port),
        None => false,
    }
}

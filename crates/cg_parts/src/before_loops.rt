//! The faults A1 to A5: of sizes, names and drivers.
ghost use Rattle.std.specs.Prelude.{◌≡◌, IfOk, count_by, nat_lt};
ghost use Rattle.cg_model.specs.First.{first_from};
ghost use Rattle.cg_model.specs.Limits.{most_links};
ghost use Rattle.cg_parts.specs.Parts.{entries, name_of};
ghost use Rattle.cg_parts.specs.Numbers.{IsNumbering};
ghost use Rattle.cg_parts.specs.Rules as spec;

use crate::claims::first_repeat;
use crate::drivers::{DriverRule, first_wrong};
use crate::entry::Entry;
use crate::fault::{ArchFault, NamePlace, TooLargePlace};
use crate::parts::{Element, Parts};
use cg_model::{LONGEST_NAME, MOST_LINKS, MOST_MEMORY, MOST_RESOURCES, MOST_UNITS, is_name};
use cg_reading::Numbers;
use std::alloc::{AllocError, Global};

/// Returns the lowest of A1 to A5 that applies, at its first place. The resources are those of the parts, with their
/// numbers.
#[tactic(auto, unfolding(crate::specs::Rules::fault_before_loops))]
pub fn fault_before_loops(
    alloc: Global,
    parts: &Parts,
    resources: &[Entry],
    numbers: &Numbers,
) -> Result<Option<ArchFault>, AllocError>
    requires resources { resources.now ≡ entries parts.now.elements }
    requires numbers { IsNumbering numbers.now resources.now }
    ensures { IfOk result (λ found. found ≡ spec.fault_before_loops parts.now) }
{
    if let Some(place) = too_large(parts, resources) {
        return Ok(Some(ArchFault::TooLarge(place)));
    }
    if let Some(place) = bad_name(parts) {
        return Ok(Some(ArchFault::BadName(place)));
    }
    let elements = parts.elements.as_slice();
    if let Some(number) = first_repeat(alloc, elements)? {
        return Ok(Some(ArchFault::RepeatedName(number)));
    }
    wrong_driver(alloc, elements, resources, numbers)
}

/// Returns A4 at its first place, or else A5.
fn wrong_driver(
    alloc: Global,
    elements: &[Element],
    resources: &[Entry],
    numbers: &Numbers,
) -> Result<Option<ArchFault>, AllocError>
    requires { IsNumbering numbers.now resources.now }
    ensures { IfOk result (λ found. found ≡ spec.wrong_driver elements.now resources.now) }
{
    if let Some(place) = first_wrong(
        alloc,
        DriverRule::UnknownDriver,
        elements,
        resources,
        numbers,
    )? {
        return Ok(Some(ArchFault::UnknownDriver(place)));
    }
    if let Some(place) = first_wrong(alloc, DriverRule::PortDrives, elements, resources, numbers)? {
        return Ok(Some(ArchFault::PortDrives(place)));
    }
    Ok(None)
}

fn too_large(parts: &Parts, resources: &[Entry]) -> Option<TooLargePlace>
    ensures { result ≡ spec.too_large parts.now resources.now }
{
    if resources.len() > MOST_RESOURCES {
        Some(TooLargePlace::Resources)
    } else if has_many_links(resources) {
        Some(TooLargePlace::Links)
    } else if count_units(parts.elements.as_slice()) > MOST_UNITS {
        Some(TooLargePlace::Units)
    } else if parts.memory > MOST_MEMORY {
        Some(TooLargePlace::Memory)
    } else {
        None
    }
}

/// Returns whether the resources have more links than allowed.
fn has_many_links(resources: &[Entry]) -> bool
    ensures { result ≡ nat_lt most_links (spec.links resources.now) }
{
    let mut room = MOST_LINKS;
    for resource in resources {
        let drivers = resource.drivers.as_slice().len();
        if drivers > room {
            return true;
        }
        room -= drivers;
    }
    false
}

fn count_units(elements: &[Element]) -> usize
    ensures { result ≡ count_by spec.is_unit elements.now }
{
    let mut count = 0;
    for element in elements {
        if is_unit(element) {
            count += 1;
        }
    }
    count
}

fn is_unit(element: &Element) -> bool
    ensures { result ≡ spec.is_unit element.now }
{
    matches!(element, Element::Unit { .. })
}

fn bad_name(parts: &Parts) -> Option<NamePlace>
    ensures { result ≡ spec.bad_name parts.now }
{
    if !is_name(parts.name.as_str(), LONGEST_NAME) {
        return Some(NamePlace::Architecture);
    }
    first_bad_name(parts.elements.as_slice()).map(NamePlace::Element)
}

fn first_bad_name(elements: &[Element]) -> Option<usize>
    ensures { result ≡ first_from (λ number e. spec.has_bad_name e) 0 elements.now }
{
    for (number, element) in elements.iter().enumerate() {
        if !is_name(name_of(element), LONGEST_NAME) {
            return Some(number);
        }
    }
    None
}

fn name_of(element: &Element) -> &str
    ensures { result.now ≡ name_of element.now }
{
    match element {
        Element::Wire { name, .. } | Element::Register { name, .. } | Element::Unit { name, .. } =>
            name.as_str(),
    }
}

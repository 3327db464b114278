//! Builds the flat architecture of parts.
ghost use Rattle.std.specs.Prelude.{◌≡◌, ◌+◌, ◌-◌, ◌≤◌, ◌++◌, IfOk, OnOk, length, map};
ghost use Rattle.std.specs.List.{range_with_len};
ghost use Rattle.cg_parts.specs.Parts.{entries, entries_of};
ghost use Rattle.cg_parts.specs.Numbers.{IsNumbering};
ghost use Rattle.cg_validate.specs.Flat as spec;
ghost use Rattle.cg_model.specs.Limits.{most_resources};

use cg_flat::Flat;
use cg_model::{Name, Resource, Unit, Words};
use cg_parts::{Element, Entry, Numbers, Parts, number_in};
use std::alloc::{AllocError, Global};

/// Returns the flat architecture. The resources are those of the parts, with their numbers.
#[tactic(auto, unfolding(crate::specs::Flat::arch_of))]
pub(crate) fn flat_of(
    alloc: Global,
    parts: &Parts,
    resources: &[Entry],
    numbers: &Numbers,
) -> Result<Flat, AllocError>
    requires resources { resources.now ≡ entries parts.now.elements }
    requires few { length resources.now ≤ most_resources }
    requires numbers { IsNumbering numbers.now resources.now }
    ensures { IfOk result (λ flat. flat ≡ spec.arch_of parts.now) }
{
    let name = Name::copy_of(alloc, parts.name.as_str())?;
    let numbered = resources_of(alloc, resources, numbers)?;
    let units = units_of(alloc, parts.elements.as_slice())?;
    let hub = numbers_of(alloc, parts.hub.as_slice(), resources, numbers)?;
    Ok(Flat::new(name, parts.contexts, parts.memory, numbered, units, hub))
}

/// Returns the resources with their drivers by number.
fn resources_of(
    alloc: Global,
    resources: &[Entry],
    numbers: &Numbers,
) -> Result<Vec<Resource>, AllocError>
    requires few { length resources.now ≤ most_resources }
    requires numbers { IsNumbering numbers.now resources.now }
    ensures { IfOk result (λ list. list.items ≡ map (spec.resource_of resources.now) resources.now) }
{
    let mut list = Vec::new(alloc);
    for resource in resources {
        list.push(resource_of(alloc, resource, resources, numbers)?)?;
    }
    Ok(list)
}

fn resource_of(
    alloc: Global,
    resource: &Entry,
    resources: &[Entry],
    numbers: &Numbers,
) -> Result<Resource, AllocError>
    requires few { length resources.now ≤ most_resources }
    requires numbers { IsNumbering numbers.now resources.now }
    ensures { IfOk result (λ made. made ≡ spec.resource_of resources.now resource.now) }
{
    let name = match &resource.name {
        Some(name) => Name::copy_of(alloc, name.as_str())?,
        None => Name::new(String::new(alloc)),
    };
    let drivers = numbers_of(alloc, resource.drivers.as_slice(), resources, numbers)?;
    Ok(Resource {
        name,
        kind: resource.kind,
        drivers: Words::new(drivers),
    })
}

/// Returns the numbers of the resources with the given names.
fn numbers_of(
    alloc: Global,
    names: &[Name],
    resources: &[Entry],
    numbers: &Numbers,
) -> Result<Vec<u32>, AllocError>
    requires few { length resources.now ≤ most_resources }
    requires numbers { IsNumbering numbers.now resources.now }
    ensures { IfOk result (λ list. list.items ≡ map (spec.number_in resources.now) names.now) }
{
    let mut list = Vec::new(alloc);
    for name in names {
        list.push(number_of(name.as_str(), resources, numbers))?;
    }
    Ok(list)
}

fn number_of(name: &str, resources: &[Entry], numbers: &Numbers) -> u32
    requires few { length resources.now ≤ most_resources }
    requires numbers { IsNumbering numbers.now resources.now }
    ensures { result ≡ spec.number_in resources.now name.now }
{
    match number_in(numbers, name) {
        Some(number) => {
            prove!(number < resources.len());
            number as u32
        }
        None => 0,
    }
}

/// Returns the units of `elements`.
fn units_of(alloc: Global, elements: &[Element]) -> Result<Vec<Unit>, AllocError>
    requires { length (entries elements.now) ≤ most_resources }
    ensures { IfOk result (λ units. units.items ≡ spec.units_from 0 elements.now) }
{
    let mut units = Vec::new(alloc);
    let mut first = 0;
    for element in elements {
        first = add_unit(alloc, &mut units, element, first)?;
    }
    Ok(units)
}

/// Adds the unit of an element whose resources begin with number `first`, if the element is a unit, and returns the
/// number with which the resources of the next element begin.
fn add_unit(
    alloc: Global,
    units: &mut Vec<Unit>,
    element: &Element,
    first: u32,
) -> Result<u32, AllocError>
    requires { first + length (entries_of element.now) ≤ most_resources }
    ensures units { OnOk result (units.new.items ≡ units.old.items ++ spec.units_of first element.now) }
    ensures next { IfOk result (λ next. next ≡ first + length (entries_of element.now)) }
{
    match element {
        Element::Wire { .. } | Element::Register { .. } => Ok(first + 1),
        Element::Unit {
            name,
            ops,
            latency,
            ports,
        } => {
            let out = first + ports.as_slice().len() as u32;
            units.push(Unit {
                name: Name::copy_of(alloc, name.as_str())?,
                ops: *ops,
                latency: *latency,
                ports: Words::new(numbers_between(alloc, first, out)?),
                out,
            })?;
            Ok(out + 1)
        }
    }
}

/// Returns the numbers from `first` up to and excluding `last`.
fn numbers_between(alloc: Global, first: u32, last: u32) -> Result<Vec<u32>, AllocError>
    requires { first ≤ last }
    ensures { IfOk result (λ list. list.items ≡ range_with_len first (last - first)) }
{
    let mut list = Vec::new(alloc);
    for number in first..last {
        list.push(number)?;
    }
    Ok(list)
}

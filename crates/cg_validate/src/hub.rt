//! Checks whether a hub is complete.
ghost use Rattle.std.specs.Prelude.{◌≡◌, ◌++◌, [], IfOk, eqb, flat_map, map};
ghost use Rattle.std.specs.Str.{bytes_eq};
ghost use Rattle.std.specs.List.{list_any};
ghost use Rattle.std.specs.Option.{option_copied};
ghost use Rattle.cg_model.specs.Array.{resource};
ghost use Rattle.cg_parts.specs.Parts.{entries};
ghost use Rattle.cg_parts.specs.Numbers.{IsNumbering};
ghost use Rattle.cg_validate.specs.Hub as spec;

use cg_flat::Flat;
use cg_model::{Kind, Name, Unit};
use cg_parts::{ArchFault, Entry, HubPlace, Numbers, Parts, number_in};
use std::alloc::{AllocError, Global};

/// Returns A9 at its first place.
#[tactic(auto, unfolding(crate::specs::Hub::hub_fault))]
pub(crate) fn hub_fault(
    alloc: Global,
    parts: &Parts,
    resources: &[Entry],
    numbers: &Numbers,
    flat: &Flat,
) -> Result<Option<ArchFault>, AllocError>
    requires resources { resources.now ≡ entries parts.now.elements }
    requires numbers { IsNumbering numbers.now resources.now }
    ensures { IfOk result (λ found. found ≡ spec.hub_fault parts.now flat.now) }
{
    if let Some(name) = first_bad_entry(parts.hub.as_slice(), resources, numbers) {
        return Ok(Some(ArchFault::HubIncomplete(HubPlace::Entry(Name::copy_of(
            alloc,
            name.as_str(),
        )?))));
    }
    match missing_link(alloc, flat)? {
        Some(place) => Ok(Some(ArchFault::HubIncomplete(place))),
        None => Ok(None),
    }
}

/// Returns the first entry that names no register or is among the entries before it.
fn first_bad_entry<'a>(
    names: &'a [Name],
    resources: &[Entry],
    numbers: &Numbers,
) -> Option<&'a Name>
    requires { IsNumbering numbers.now resources.now }
    ensures { option_copied result ≡ spec.first_bad_entry resources.now [] names.now }
{
    for (place, name) in names.iter().enumerate() {
        if !names_register(name.as_str(), resources, numbers)
            || stands_in(name.as_str(), &names[..place])
        {
            return Some(name);
        }
    }
    None
}

fn stands_in(name: &str, names: &[Name]) -> bool
    ensures { result ≡ list_any (bytes_eq name.now) names.now }
{
    names.iter().any(|other| name == other.as_str())
}

fn names_register(name: &str, resources: &[Entry], numbers: &Numbers) -> bool
    requires { IsNumbering numbers.now resources.now }
    ensures { result ≡ spec.names_register resources.now name.now }
{
    match number_in(numbers, name) {
        Some(number) => is_register(resources, number),
        None => false,
    }
}

fn is_register(resources: &[Entry], number: usize) -> bool
    ensures { result ≡ spec.is_register_at resources.now number }
{
    match resources.get(number) {
        Some(resource) => matches!(resource.kind, Kind::Register),
        None => false,
    }
}

/// Returns the first link that the hub needs and that is missing.
fn missing_link(alloc: Global, flat: &Flat) -> Result<Option<HubPlace>, AllocError>
    ensures { IfOk result (λ found. found ≡ spec.missing_link flat.now) }
{
    let sources = sources_of(alloc, flat)?;
    let found = first_missing(alloc, flat, &sources, flat.hub())?;
    if found.is_some() {
        return Ok(found);
    }
    missing_into_ports(alloc, flat, flat.units())
}

/// Returns the units' outs, followed by the hub's registers.
fn sources_of(alloc: Global, flat: &Flat) -> Result<Vec<u32>, AllocError>
    ensures { IfOk result (λ list. list.items ≡ spec.outs flat.now ++ flat.now.hub) }
{
    let mut list = outs_of(alloc, flat.units())?;
    list.extend_from_slice(flat.hub())?;
    Ok(list)
}

fn outs_of(alloc: Global, units: &[Unit]) -> Result<Vec<u32>, AllocError>
    ensures { IfOk result (λ list. list.items ≡ map (λ u. u.out) units.now) }
{
    let mut list = Vec::new(alloc);
    for unit in units {
        list.push(unit.out)?;
    }
    Ok(list)
}

/// Returns the first missing link from the hub's registers to the units' ports.
fn missing_into_ports(
    alloc: Global,
    flat: &Flat,
    units: &[Unit],
) -> Result<Option<HubPlace>, AllocError>
    ensures { IfOk result
        (λ found. found ≡ spec.first_missing flat.now flat.now.hub (flat_map (λ u. u.ports) units.now)) }
{
    for unit in units {
        if let Some(place) = first_missing(alloc, flat, flat.hub(), unit.ports.as_slice())? {
            return Ok(Some(place));
        }
    }
    Ok(None)
}

/// Returns the first missing link from the sources to the targets.
fn first_missing(
    alloc: Global,
    flat: &Flat,
    sources: &[u32],
    targets: &[u32],
) -> Result<Option<HubPlace>, AllocError>
    ensures { IfOk result (λ found. found ≡ spec.first_missing flat.now sources.now targets.now) }
{
    for target in targets {
        if let Some(source) = first_not_driving(flat, sources, *target) {
            return Ok(Some(missing(alloc, flat, source, *target)?));
        }
    }
    Ok(None)
}

fn missing(alloc: Global, flat: &Flat, source: u32, target: u32) -> Result<HubPlace, AllocError>
    ensures { IfOk result (λ place. place ≡ spec.missing flat.now source target) }
{
    Ok(HubPlace::Link {
        from: name_of(alloc, flat, source)?,
        to: name_of(alloc, flat, target)?,
    })
}

/// Returns the name of resource `number`.
pub(crate) fn name_of(alloc: Global, flat: &Flat, number: u32) -> Result<Name, AllocError>
    ensures { IfOk result (λ name. name ≡ (resource flat.now number).name) }
{
    match flat.resources().get(number as usize) {
        Some(resource) => Name::copy_of(alloc, resource.name.as_str()),
        None => Ok(Name::new(String::new(alloc))),
    }
}

/// Returns the first of `sources` that doesn't drive `target`.
fn first_not_driving(flat: &Flat, sources: &[u32], target: u32) -> Option<u32>
    ensures { result ≡ spec.first_not_driving flat.now sources.now target }
{
    let drivers = drivers_of(flat, target);
    for source in sources {
        if !drives(*source, drivers) {
            return Some(*source);
        }
    }
    None
}

fn drives(source: u32, drivers: &[u32]) -> bool
    ensures { result ≡ list_any (eqb source) drivers.now }
{
    drivers.iter().any(|driver| source == *driver)
}

fn drivers_of(flat: &Flat, target: u32) -> &[u32]
    ensures { result.now ≡ (resource flat.now target).drivers }
{
    match flat.resources().get(target as usize) {
        Some(resource) => resource.drivers.as_slice(),
        None => &[],
    }
}

//! The resources that elements define.
ghost use Rattle.std.specs.Prelude.{◌≡◌, ◌++◌, ◌∷◌, [], Some, IfOk, OnOk};
ghost use Rattle.cg_parts.specs.Parts as spec;

use crate::entry::Entry;
use crate::names::{distinct, out_name, port_name_of};
use crate::parts::{Element, Names};
use cg_model::{Kind, Name};
use std::alloc::{AllocError, Global};

/// Returns the resources of the elements, in their order.
#[tactic(auto, unfolding(crate::specs::Parts::entries))]
pub fn entries_of_all(alloc: Global, elements: &[Element]) -> Result<Vec<Entry>, AllocError>
    ensures { IfOk result (λ list. list.items ≡ spec.entries elements.now) }
{
    let mut list = Vec::new(alloc);
    for element in elements {
        add_entries(alloc, &mut list, element)?;
    }
    Ok(list)
}

/// Appends the resources of `element` to `list`.
fn add_entries(alloc: Global, list: &mut Vec<Entry>, element: &Element) -> Result<(), AllocError>
    ensures { OnOk result (list.new.items ≡ list.old.items ++ spec.entries_of element.now) }
{
    match element {
        Element::Wire { name, drivers } => add_entry(
            alloc,
            list,
            name.as_str(),
            Kind::Wire,
            drivers.as_slice(),
        ),
        Element::Register { name, drivers } => add_entry(
            alloc,
            list,
            name.as_str(),
            Kind::Register,
            drivers.as_slice(),
        ),
        Element::Unit { name, ports, .. } => {
            add_ports(alloc, list, name.as_str(), ports.as_slice())?;
            list.push(out_entry(alloc, name.as_str())?)?;
            Ok(())
        }
    }
}

/// Appends the resource of a wire or a register.
fn add_entry(
    alloc: Global,
    list: &mut Vec<Entry>,
    name: &str,
    kind: Kind,
    drivers: &[Name],
) -> Result<(), AllocError>
    ensures { OnOk result (list.new.items ≡ list.old.items ++ record { name = Some name.now; kind = kind; drivers = spec.distinct drivers.now } ∷ []) }
{
    let entry = Entry {
        name: Some(Name::copy_of(alloc, name)?),
        kind,
        drivers: distinct(alloc, drivers)?,
    };
    list.push(entry)?;
    Ok(())
}

/// Appends the ports of a unit.
fn add_ports(
    alloc: Global,
    list: &mut Vec<Entry>,
    unit: &str,
    ports: &[Names],
) -> Result<(), AllocError>
    ensures { OnOk result (list.new.items ≡ list.old.items ++ spec.port_entries unit.now 0 ports.now) }
{
    for (port, drivers) in ports.iter().enumerate() {
        let entry = Entry {
            name: port_name_of(alloc, unit, port)?,
            kind: Kind::Port,
            drivers: distinct(alloc, drivers.as_slice())?,
        };
        list.push(entry)?;
    }
    Ok(())
}

/// Returns the out of the unit `unit`.
fn out_entry(alloc: Global, unit: &str) -> Result<Entry, AllocError>
    ensures { IfOk result (λ entry. entry ≡ spec.out_entry unit.now) }
{
    Ok(Entry {
        name: Some(out_name(alloc, unit)?),
        kind: Kind::Out,
        drivers: Names::new(Vec::new(alloc)),
    })
}

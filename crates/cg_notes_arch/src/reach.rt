//! Faults of architectures on names of resources: sizes, loops of wires, and links that a hub lacks.

use crate::elements::Part;
use crate::files::ArchFile;
use crate::heads::find_key;
use crate::names::{cell_of, has_resource, parts_of, tile_at};
use cg_model::Name;
use cg_parts::{HubPlace, TooLargePlace};
use cg_spans::{Finding, Place};
use std::alloc::{AllocError, Global};
use toml::Value;

/// Returns the finding on the limit that the architecture file `bytes` exceeds. `place` names what it has too much of.
pub(crate) fn find_limit(
    alloc: Global,
    bytes: &[u8],
    place: TooLargePlace,
) -> Result<Option<Finding>, AllocError> {
    let (key, sentence) = match place {
        TooLargePlace::Grid => ("grid", "the grid has more than 32 rows or columns"),
        TooLargePlace::Memory => ("memory", "memory is a number of words, at most 1048576"),
        TooLargePlace::Resources => (
            "grid",
            "the tiles of the grid have more than 4096 resources: wires, registers, and the ports and outs of units",
        ),
        TooLargePlace::Links => (
            "grid",
            "the tiles of the grid have more than 65536 links, one for each driver of a resource",
        ),
        TooLargePlace::Units => ("grid", "the tiles of the grid have more than 1024 units"),
    };
    find_key(alloc, bytes, key, sentence)
}

/// The maximum number of wires of a loop that are named.
const MOST_NAMED: usize = 8;

/// Returns the finding on the loop of the wires `names` in `file`, at its first wire and with the line of each.
pub(crate) fn find_loop(
    alloc: Global,
    file: ArchFile<'_>,
    names: &[Name],
) -> Result<Option<Finding>, AllocError> {
    let Some(first) = names.first() else {
        return Ok(None);
    };
    let list = wires_with_lines(alloc, file, names)?;
    let list = list.as_str();
    let what = format!(in alloc;
        "these wires drive one another in a loop without a register; make one of them a reg, or drop a reference: {list}"
    )?;
    find_drivers(alloc, file, first.as_str(), what.as_str())
}

/// Returns the first of `names`, names of wires of `file`, each with the line of its drivers.
fn wires_with_lines(
    alloc: Global,
    file: ArchFile<'_>,
    names: &[Name],
) -> Result<String, AllocError> {
    let mut list = String::new(alloc);
    for (number, name) in names.iter().take(MOST_NAMED).enumerate() {
        if number > 0 {
            list.push_str(", ")?;
        }
        push_wire(alloc, file, name.as_str(), &mut list)?;
    }
    if names.len() > MOST_NAMED {
        list.push_str(" ..")?;
    }
    Ok(list)
}

/// Adds the wire `name` of `file` to `list`, with the line of its drivers.
fn push_wire(
    alloc: Global,
    file: ArchFile<'_>,
    name: &str,
    list: &mut String,
) -> Result<(), AllocError> {
    list.push_str(name)?;
    let at = match part_of_name(file.table, name) {
        Some(part) => part.drivers_at(file.bytes),
        None => None,
    };
    match at {
        Some(at) => {
            let Place { line, .. } = Place::at(file.bytes, at);
            let text = format!(in alloc; " (line {line})")?;
            list.push_str(text.as_str())
        }
        None => Ok(()),
    }
}

/// Returns the finding on an entry of the hub of the architecture file `bytes` at `place`; None if `place` is a link.
pub(crate) fn find_entry(
    alloc: Global,
    bytes: &[u8],
    place: &HubPlace,
) -> Result<Option<Finding>, AllocError> {
    let HubPlace::Entry(name) = place else {
        return Ok(None);
    };
    let name = name.as_str();
    let what = match cell_of(name) {
        Some(_) => format!(in alloc; "the hub's {name} is not a register, or is named twice")?,
        None => format!(in alloc;
            "the hub's {name} is not a register: a flat name begins with its cell, for example r0c0_{name}"
        )?,
    };
    find_key(alloc, bytes, "hub", what.as_str())
}

/// Returns the finding that the hub of `file` lacks a link from the resource `from` to the resource `to`.
pub(crate) fn find_link(
    alloc: Global,
    file: ArchFile<'_>,
    from: &str,
    to: &str,
) -> Result<Option<Finding>, AllocError> {
    let what = format!(in alloc; "the hub needs a link from {from} to {to}")?;
    find_drivers(alloc, file, to, what.as_str())
}

/// Returns the finding that `what` is wrong with the drivers of the resource `name` in `file`.
fn find_drivers(
    alloc: Global,
    file: ArchFile<'_>,
    name: &str,
    what: &str,
) -> Result<Option<Finding>, AllocError> {
    match part_of_name(file.table, name) {
        Some(part) => part.finding(alloc, file.bytes, part.drivers_at(file.bytes), what),
        None => Ok(None),
    }
}

/// Returns the part of the architecture `table` from which the resource `name`, such as `r0c1_h`, comes.
fn part_of_name<'a>(table: &'a Value, name: &str) -> Option<Part<'a>> {
    let (cell, rest) = cell_of(name)?;
    let tile = tile_at(table, cell)?;
    let number = parts_of(table, tile)?
        .iter()
        .position(|part| has_resource(part, rest))?;
    Some(Part { tile, number })
}

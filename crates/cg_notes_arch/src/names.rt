//! Names of the elements of a cell: those of a tile's parts, and of the ports and outs of its units.

use crate::elements::Part;
use cg_grid::Cell;
use cg_help::{nearest_name, short_list};
use std::alloc::{AllocError, Global};
use toml::Value;

/// The keys that wires and registers are named by.
const NETS: [&str; 2] = ["wire", "reg"];

/// The letters of the ports of a unit.
const PORTS: [&str; 3] = ["a", "b", "c"];

/// Returns the cell that a resource's flat name begins with, and the rest of the name.
pub(crate) fn cell_of(name: &str) -> Option<(Cell, &str)> {
    let (cell, rest) = name.split_once('_')?;
    let (row, column) = cell.strip_prefix('r')?.split_once('c')?;
    let row = row.parse().ok()?;
    let column = column.parse().ok()?;
    Some((Cell { row, column }, rest))
}

/// Returns the tile in `cell` of the grid of `table`, an architecture.
pub(crate) fn tile_at(table: &Value, cell: Cell) -> Option<&str> {
    let line = table.get("grid")?.as_array()?.get(cell.row)?.as_str()?;
    line.get(cell.column..cell.column.saturating_add(1))
}

/// Returns the parts of the tile in `cell` of `table`, an architecture.
pub(crate) fn parts_at(table: &Value, cell: Cell) -> Option<&[Value]> {
    parts_of(table, tile_at(table, cell)?)
}

/// Returns the parts of `tile` in `table`, an architecture.
pub(crate) fn parts_of<'a>(table: &'a Value, tile: &str) -> Option<&'a [Value]> {
    let parts = table.get("tiles")?.as_table()?.get(tile)?.as_array()?;
    Some(parts.as_slice())
}

/// Returns the text at `key` of `part`.
pub(crate) fn said<'a>(part: &'a Value, key: &str) -> Option<&'a str> {
    part.get(key)?.as_str()
}

/// Checks whether `part` of a tile has the resource `name`: the part itself, or a port or the out of a unit.
pub(crate) fn has_resource(part: &Value, name: &str) -> bool {
    if said(part, "wire") == Some(name) || said(part, "reg") == Some(name) {
        return true;
    }
    match said(part, "unit").and_then(|unit| name.strip_prefix(unit)) {
        Some(end) => matches!(end, "_a" | "_b" | "_c" | "_o"),
        None => false,
    }
}

/// Adds to `names` the names of all that `part` defines: a wire, a register, or a unit with its out and its ports.
fn add_names(alloc: Global, part: &Value, names: &mut Vec<String>) -> Result<(), AllocError> {
    if let Some(unit) = said(part, "unit") {
        names.push(String::from_str(alloc, unit)?)?;
    }
    add_driver(alloc, part, names)?;
    let Some(unit) = said(part, "unit") else {
        return Ok(());
    };
    for letter in PORTS.iter().take(port_count(part)) {
        let letter = *letter;
        names.push(format!(in alloc; "{unit}_{letter}")?)?;
    }
    Ok(())
}

/// Adds to `names` the name of the resource of `part` that may drive others: a wire, a register or the out of a unit.
fn add_driver(alloc: Global, part: &Value, names: &mut Vec<String>) -> Result<(), AllocError> {
    for key in &NETS {
        if let Some(name) = said(part, key) {
            names.push(String::from_str(alloc, name)?)?;
        }
    }
    if let Some(unit) = said(part, "unit") {
        names.push(format!(in alloc; "{unit}_o")?)?;
    }
    Ok(())
}

/// Returns the names of the resources of `parts` that may drive others.
pub(crate) fn drivers_of(alloc: Global, parts: &[Value]) -> Result<Vec<String>, AllocError> {
    let mut names = Vec::new(alloc);
    for part in parts {
        add_driver(alloc, part, &mut names)?;
    }
    Ok(names)
}

/// Returns the first of `names`, separated by commas.
pub(crate) fn list_of(alloc: Global, names: &[String]) -> Result<String, AllocError> {
    let mut known: Vec<&str> = Vec::new(alloc);
    for name in names {
        known.push(name.as_str())?;
    }
    short_list(alloc, known.as_slice())
}

/// Returns the number of ports of `part`, a unit.
fn port_count(part: &Value) -> usize {
    match part.get("ports").and_then(|ports| ports.as_array()) {
        Some(ports) => ports.len(),
        None => 0,
    }
}

/// Returns the one of `names` that may be meant by `name`.
pub(crate) fn near_name(
    alloc: Global,
    name: &str,
    names: &[String],
) -> Result<Option<String>, AllocError> {
    let mut known: Vec<&str> = Vec::new(alloc);
    for name in names {
        known.push(name.as_str())?;
    }
    match nearest_name(alloc, name, known.as_slice())? {
        Some(near) => Ok(Some(String::from_str(alloc, near)?)),
        None => Ok(None),
    }
}

/// Returns which name of `part` in `table`, an architecture, an earlier part of the tile has already.
pub(crate) fn repeated_name(
    alloc: Global,
    table: &Value,
    part: Part<'_>,
) -> Result<Option<String>, AllocError> {
    let parts = parts_of(table, part.tile).unwrap_or(&[]);
    let mut names = Vec::new(alloc);
    if let Some(value) = parts.get(part.number) {
        add_names(alloc, value, &mut names)?;
    }
    for (number, earlier) in parts.iter().enumerate().take(part.number) {
        let mut taken = Vec::new(alloc);
        add_names(alloc, earlier, &mut taken)?;
        if let Some(name) = common_name(names.as_slice(), taken.as_slice()) {
            let text = format!(in alloc; "{name} is already a name of part {number}")?;
            return Ok(Some(text));
        }
    }
    Ok(None)
}

/// Returns the first of `names` that is one of `others`.
fn common_name<'a>(names: &'a [String], others: &[String]) -> Option<&'a str> {
    for name in names {
        let name = name.as_str();
        if others.iter().any(|other| other.as_str() == name) {
            return Some(name);
        }
    }
    None
}

//! What is wrong with drivers, by the references that parts write.

use crate::elements::Origin;
use crate::names::{cell_of, drivers_of, list_of, near_name, parts_at, parts_of, said, tile_at};
use cg_grid::{Cell, Grid, Side, neighbour};
use cg_parts::ArchFault;
use cg_toml::{flag_or, items_at, items_in};
use std::alloc::{AllocError, Global};
use toml::Value;

/// Returns the message of `fault` on `driver`, the flat name of a driver of the element from `origin` in `table`, an
/// architecture.
pub(crate) fn wrong_driver(
    alloc: Global,
    table: &Value,
    origin: Origin<'_>,
    driver: &str,
    fault: &ArchFault,
) -> Result<String, AllocError> {
    let written = match written_for(table, origin, driver) {
        Some(written) => written,
        None => Written {
            reference: driver,
            list: &[],
        },
    };
    if let ArchFault::UnknownDriver(_) = fault {
        return unknown_driver(alloc, table, written, driver);
    }
    let reference = written.reference;
    format!(in alloc;
        "{reference}: a port drives nothing: name a wire, a register or the out of a unit, which ends with _o"
    )
}

/// The reference that a part writes for a driver, with its list.
#[derive(Clone, Copy, Drop)]
pub(crate) struct Written<'a> {
    /// The reference.
    pub(crate) reference: &'a str,
    /// The list in which it is written.
    pub(crate) list: &'a [Value],
}

impl Written<'_> {
    /// Checks whether the list contains `reference`.
    fn has(self, reference: &str) -> bool {
        self.list
            .iter()
            .any(|item| item.as_str() == Some(reference))
    }
}

/// Returns the message that `table`, an architecture, has no resource with the flat name `driver`, for which a part
/// writes `written`, and which one may be meant.
pub(crate) fn unknown_driver(
    alloc: Global,
    table: &Value,
    written: Written<'_>,
    driver: &str,
) -> Result<String, AllocError> {
    let reference = written.reference;
    if is_flat_name(alloc, table, reference)? {
        return format!(in alloc;
            "no resource is called {reference}: a flat name is written with a slash, /{reference}"
        );
    }
    let Some((cell, name)) = cell_of(driver) else {
        return format!(in alloc;
            "no resource is called {driver}: a flat name begins with its cell, for example r0c0_{driver}"
        );
    };
    let Cell { row, column } = cell;
    let Some(tile) = tile_at(table, cell) else {
        return format!(in alloc;
            "no resource is called {driver}: the grid has no cell in row {row}, column {column}"
        );
    };
    let Some(parts) = parts_of(table, tile) else {
        return format!(in alloc;
            "no resource is called {reference}: the cell in row {row}, column {column} is empty"
        );
    };
    if parts.iter().any(|part| said(part, "unit") == Some(name)) {
        return format!(in alloc; "{reference} is a unit: write {reference}_o, its output");
    }
    unknown_name(
        alloc,
        tile,
        drivers_of(alloc, parts)?.as_slice(),
        name,
        written,
    )
}

/// Checks whether `name` is the flat name of a resource of `table`, an architecture, that may drive others.
fn is_flat_name(alloc: Global, table: &Value, name: &str) -> Result<bool, AllocError> {
    let Some((cell, rest)) = cell_of(name) else {
        return Ok(false);
    };
    let Some(parts) = parts_at(table, cell) else {
        return Ok(false);
    };
    let names = drivers_of(alloc, parts)?;
    Ok(names.iter().any(|known| known.as_str() == rest))
}

/// Returns the message that `name`, for which a part writes `written`, isn't one of `names`, those of the drivers of
/// `tile`, and which one may be meant: one that its list doesn't contain yet.
fn unknown_name(
    alloc: Global,
    tile: &str,
    names: &[String],
    name: &str,
    written: Written<'_>,
) -> Result<String, AllocError> {
    let reference = written.reference;
    let front = reference.strip_suffix(name).unwrap_or("");
    let others = names_beside(alloc, names, front, written)?;
    if let Some(near) = near_name(alloc, name, others.as_slice())? {
        let near = near.as_str();
        return format!(in alloc; "no resource is called {reference}, did you mean {front}{near}?");
    }
    if near_name(alloc, name, names)?.is_some() {
        return format!(in alloc;
            "no resource is called {reference}: tile {tile} has no {name}; declare it as a part, [[tiles.{tile}]] with reg = \"{name}\", or remove the reference"
        );
    }
    let known = list_of(alloc, names)?;
    let known = known.as_str();
    format!(in alloc;
        "no resource is called {reference}: tile {tile} has no {name}; its drivers are {known}"
    )
}

/// Returns those of `names` that, with `front` before them, the list of `written` doesn't contain.
fn names_beside(
    alloc: Global,
    names: &[String],
    front: &str,
    written: Written<'_>,
) -> Result<Vec<String>, AllocError> {
    let mut others = Vec::new(alloc);
    for name in names {
        let name = name.as_str();
        let reference = format!(in alloc; "{front}{name}")?;
        if !written.has(reference.as_str()) {
            others.push(String::from_str(alloc, name)?)?;
        }
    }
    Ok(others)
}

/// Returns the first reference that the part of `origin` in `table`, an architecture, writes to the resource with the
/// flat name `driver`.
fn written_for<'a>(table: &'a Value, origin: Origin<'_>, driver: &str) -> Option<Written<'a>> {
    let part = parts_of(table, origin.part.tile)?.get(origin.part.number)?;
    let grid = grid_of(table)?;
    let Some(ports) = items_at(part, "ports") else {
        return written_in(items_at(part, "from")?, grid, origin.cell, driver);
    };
    for port in ports {
        let found = written_in(items_in(port)?, grid, origin.cell, driver);
        if found.is_some() {
            return found;
        }
    }
    None
}

/// Returns the grid of `table`, an architecture.
pub(crate) fn grid_of(table: &Value) -> Option<Grid> {
    let rows = items_at(table, "grid")?;
    Some(Grid {
        rows: rows.len(),
        columns: rows.first()?.as_str()?.len(),
        torus: flag_or(table, "torus", false)?,
    })
}

/// Returns the first reference in `list`, which is written in `cell` of `grid`, to the resource with the flat name
/// `driver`.
fn written_in<'a>(list: &'a [Value], grid: Grid, cell: Cell, driver: &str) -> Option<Written<'a>> {
    for item in list {
        let reference = item.as_str()?;
        if is_to(reference, grid, cell, driver) {
            return Some(Written { reference, list });
        }
    }
    None
}

/// Checks whether `reference`, which is written in `cell` of `grid`, refers to the resource with the flat name
/// `driver`.
fn is_to(reference: &str, grid: Grid, cell: Cell, driver: &str) -> bool {
    if let Some(flat) = reference.strip_prefix('/') {
        return flat == driver;
    }
    let (side, name) = sided(reference);
    match (neighbour(grid, cell, side), cell_of(driver)) {
        (Some(next), Some((known, rest))) => next == known && name == rest,
        _ => false,
    }
}

/// Returns the side on which the resource lies that `reference`, which isn't a flat name, refers to, and its name
/// there.
pub(crate) fn sided(reference: &str) -> (Side, &str) {
    match reference.split_once('.') {
        Some(("N", name)) => (Side::North, name),
        Some(("E", name)) => (Side::East, name),
        Some(("S", name)) => (Side::South, name),
        Some(("W", name)) => (Side::West, name),
        _ => (Side::Here, reference),
    }
}

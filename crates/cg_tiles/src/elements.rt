//! Makes the parts that tiles on a grid define.
ghost use Rattle.std.specs.Prelude.{◌≡◌, ◌+◌, ◌<◌, ◌≤◌, ◌++◌, ◌∷◌, [], IfOk, IfErr, OnOk, IsErrOf, length, map, filter_map, fold, string_bytes, sum_by};
ghost use Rattle.cg_model.specs.Limits.{most_links};
ghost use Rattle.cg_parts.specs.Parts.{with_name};
ghost use Rattle.cg_tiles.specs.Counts as counts;
ghost use Rattle.cg_tiles.specs.Elements as spec;

use crate::room::{MakingFault, Room};
use cg_grid::{
    Cell, Grid, Part, Reference, References, Side, WrittenArch, WrittenPart, columns, neighbour,
    tile_of,
};
use cg_model::{Items, MOST_LINKS, Name};
use cg_parts::{Element, Names, Parts};
use indexmap::IndexSet;
use std::alloc::{AllocError, Global};

/// Returns the parts that are described, unless there are more links than allowed into their resources.
#[tactic(auto, unfolding(crate::specs::Elements::parts_of))]
pub(crate) fn parts_of(alloc: Global, written: WrittenArch) -> Result<Parts, MakingFault>
    ensures parts { IfOk result (λ parts. parts ≡ spec.parts_of written) }
    ensures many { IsErrOf result MakingFault.TooManyLinks → most_links < counts.grid_links written (spec.grid_of written) 0 written.header.grid }
{
    let elements = elements_of(alloc, &written)?;
    Ok(Parts {
        name: written.header.name,
        contexts: written.header.contexts,
        memory: written.header.memory,
        elements: Items::new(elements),
        hub: written.header.hub,
    })
}

/// The elements made so far, and the remaining room.
#[derive(Drop)]
struct Made {
    elements: Vec<Element>,
    room: Room,
}

/// The description, and the grid on which its tiles lie.
#[derive(Clone, Copy)]
struct Tiling<'a> {
    written: &'a WrittenArch,
    grid: Grid,
}

/// A cell of a grid.
#[derive(Clone, Copy)]
struct Site {
    grid: Grid,
    cell: Cell,
}

/// Returns the elements of all cells, by row and column.
fn elements_of(alloc: Global, written: &WrittenArch) -> Result<Vec<Element>, MakingFault>
    ensures elements { IfOk result (λ list. list.items ≡ spec.grid_elements written.now (spec.grid_of written.now) 0 written.now.header.grid) }
    ensures many { IsErrOf result MakingFault.TooManyLinks → most_links < counts.grid_links written.now (spec.grid_of written.now) 0 written.now.header.grid }
{
    let rows = written.header.grid.as_slice();
    let grid = Grid {
        rows: rows.len(),
        columns: columns(rows),
        torus: written.header.torus,
    };
    let tiling = Tiling { written, grid };
    let room = Room {
        links: MOST_LINKS,
        text: 67_108_864,
    };
    let mut made = Made {
        elements: Vec::new(alloc),
        room,
    };
    for (row, cells) in rows.iter().enumerate() {
        add_row(alloc, &mut made, tiling, row, cells.as_str().as_bytes())?;
    }
    Ok(made.elements)
}

/// Adds the elements of a row.
fn add_row(
    alloc: Global,
    made: &mut Made,
    tiling: Tiling,
    row: usize,
    cells: &[u8],
) -> Result<(), MakingFault>
    ensures elements { OnOk result (made.new.elements.items ≡ made.old.elements.items ++ spec.row_elements tiling.entry.written.now tiling.entry.grid row 0 cells.now) }
    ensures room { OnOk result (made.new.room.links + counts.row_links tiling.entry.written.now tiling.entry.grid row 0 cells.now ≡ made.old.room.links) }
    ensures many { IsErrOf result MakingFault.TooManyLinks → made.old.room.links < counts.row_links tiling.entry.written.now tiling.entry.grid row 0 cells.now }
{
    for (column, letter) in cells.iter().enumerate() {
        let cell = Cell { row, column };
        add_cell(alloc, made, tiling, cell, *letter)?;
    }
    Ok(())
}

/// Adds the elements of a cell: the parts of its tile.
fn add_cell(
    alloc: Global,
    made: &mut Made,
    tiling: Tiling,
    cell: Cell,
    letter: u8,
) -> Result<(), MakingFault>
    ensures elements { OnOk result (made.new.elements.items ≡ made.old.elements.items ++ spec.cell_elements tiling.entry.written.now tiling.entry.grid cell letter) }
    ensures room { OnOk result (made.new.room.links + counts.part_links tiling.entry.grid cell (spec.parts_for tiling.entry.written.now.tiles letter) ≡ made.old.room.links) }
    ensures many { IsErrOf result MakingFault.TooManyLinks → made.old.room.links < counts.part_links tiling.entry.grid cell (spec.parts_for tiling.entry.written.now.tiles letter) }
{
    let grid = tiling.grid;
    match tile_of(tiling.written.tiles.as_slice(), letter) {
        Some(tile) => add_parts(alloc, made, Site { grid, cell }, tile.parts.as_slice()),
        None => Ok(()),
    }
}

fn add_parts(
    alloc: Global,
    made: &mut Made,
    site: Site,
    parts: &[WrittenPart],
) -> Result<(), MakingFault>
    ensures elements { OnOk result (made.new.elements.items ≡ made.old.elements.items ++ map (λ p. spec.element_of site.grid site.cell p.part) parts.now) }
    ensures room { OnOk result (made.new.room.links + counts.part_links site.grid site.cell parts.now ≡ made.old.room.links) }
    ensures many { IsErrOf result MakingFault.TooManyLinks → made.old.room.links < counts.part_links site.grid site.cell parts.now }
{
    for part in parts {
        let element = element_of(alloc, &mut made.room, site, &part.part)?;
        made.elements.push(element)?;
    }
    Ok(())
}

/// Returns the element of a part of a tile in a cell.
fn element_of(
    alloc: Global,
    room: &mut Room,
    site: Site,
    part: &Part,
) -> Result<Element, MakingFault>
    ensures element { IfOk result (λ element. element ≡ spec.element_of site.grid site.cell part.now) }
    ensures room { OnOk result (room.new.links + counts.links_of site.grid site.cell part.now ≡ room.old.links) }
    ensures many { IsErrOf result MakingFault.TooManyLinks → room.old.links < counts.links_of site.grid site.cell part.now }
{
    match part {
        Part::Wire { name, from } => {
            let driven = driven_of(alloc, room, site, name.as_str(), from.as_slice())?;
            Ok(Element::Wire {
                name: driven.name,
                drivers: driven.drivers,
            })
        }
        Part::Register { name, from } => {
            let driven = driven_of(alloc, room, site, name.as_str(), from.as_slice())?;
            Ok(Element::Register {
                name: driven.name,
                drivers: driven.drivers,
            })
        }
        Part::Unit {
            name,
            ops,
            latency,
            ports,
            ..
        } => {
            let ports = ports_of(alloc, room, site, ports.as_slice())?;
            Ok(Element::Unit {
                name: flat_name(alloc, site.cell, name.as_str())?,
                ops: *ops,
                latency: *latency,
                ports: Items::new(ports),
            })
        }
    }
}

/// A resource, and its drivers.
#[derive(Drop)]
struct Driven {
    name: Name,
    drivers: Names,
}

fn driven_of(
    alloc: Global,
    room: &mut Room,
    site: Site,
    name: &str,
    from: &[Reference],
) -> Result<Driven, MakingFault>
    ensures name { IfOk result (λ driven. driven.name ≡ spec.flat_name site.cell name.now) }
    ensures drivers { IfOk result (λ driven. driven.drivers ≡ spec.drivers_of site.grid site.cell from.now) }
    ensures room { OnOk result (room.new.links + counts.list_links site.grid site.cell from.now ≡ room.old.links) }
    ensures many { IsErrOf result MakingFault.TooManyLinks → room.old.links < counts.list_links site.grid site.cell from.now }
{
    let name = flat_name(alloc, site.cell, name)?;
    let drivers = drivers_of(alloc, room, site, from)?;
    Ok(Driven { name, drivers })
}

fn ports_of(
    alloc: Global,
    room: &mut Room,
    site: Site,
    ports: &[References],
) -> Result<Vec<Names>, MakingFault>
    ensures ports { IfOk result (λ list. list.items ≡ map (spec.drivers_of site.grid site.cell) ports.now) }
    ensures room { OnOk result (room.new.links + sum_by (counts.list_links site.grid site.cell) ports.now ≡ room.old.links) }
    ensures many { IsErrOf result MakingFault.TooManyLinks → room.old.links < sum_by (counts.list_links site.grid site.cell) ports.now }
{
    let mut list = Vec::new(alloc);
    for references in ports {
        list.push(drivers_of(alloc, room, site, references.as_slice())?)?;
    }
    Ok(list)
}

/// Returns the names of the drivers that references in a cell name, equal ones once.
fn drivers_of(
    alloc: Global,
    room: &mut Room,
    site: Site,
    references: &[Reference],
) -> Result<Names, MakingFault>
    ensures names { IfOk result (λ names. names ≡ spec.drivers_of site.grid site.cell references.now) }
    ensures room { OnOk result (room.new.links + counts.list_links site.grid site.cell references.now ≡ room.old.links) }
    ensures many { IsErrOf result MakingFault.TooManyLinks → room.old.links < counts.list_links site.grid site.cell references.now }
{
    let names = names_of(alloc, room, site, references)?;
    if names.len() > room.links {
        return Err(MakingFault::TooManyLinks);
    }
    room.links -= names.len();
    Ok(Names::new(names))
}

/// Returns the names of the drivers that `references` in a cell name, equal ones once. Stops with `TooManyLinks` once
/// they are too many for the room while references remain, so that it returns at most one name too many.
#[tactic(auto, using(crate::proofs::Distinct::fold_longer, crate::proofs::Distinct::fold_next), unfolding(cg_parts::specs::Parts::distinct))]
fn names_of(
    alloc: Global,
    room: &mut Room,
    site: Site,
    references: &[Reference],
) -> Result<Vec<Name>, MakingFault>
    ensures names { IfOk result (λ names. names.items ≡ spec.drivers_of site.grid site.cell references.now) }
    ensures links { room.new.links ≡ room.old.links }
    ensures many { IsErrOf result MakingFault.TooManyLinks → room.old.links < counts.list_links site.grid site.cell references.now }
{
    let mut kept = Kept {
        seen: IndexSet::new(alloc),
        names: Vec::new(alloc),
    };
    for reference in references {
        if kept.names.len() > room.links {
            return Err(MakingFault::TooManyLinks);
        }
        add_driver(alloc, &mut kept, room, site, reference)?;
    }
    Ok(kept.names)
}

/// The distinct names of a list in the order of their first occurrences, and the texts of those that are kept.
#[derive(Drop)]
struct Kept {
    seen: IndexSet<String>,
    names: Vec<Name>,
}

/// Adds the name of the driver that a reference names, if it names one.
fn add_driver(
    alloc: Global,
    kept: &mut Kept,
    room: &mut Room,
    site: Site,
    reference: &Reference,
) -> Result<(), MakingFault>
    requires { map string_bytes kept.old.seen.keys ≡ kept.old.names.items }
    ensures seen { OnOk result (map string_bytes kept.new.seen.keys ≡ kept.new.names.items) }
    ensures names { OnOk result (kept.new.names.items ≡ fold with_name kept.old.names.items (filter_map (spec.driver_of site.grid site.cell) (reference.now ∷ []))) }
    ensures links { room.new.links ≡ room.old.links }
    ensures memory { IfErr result (λ fault. fault ≡ MakingFault.Memory) }
{
    if let Some(other) = neighbour(site.grid, site.cell, reference.side) {
        let name = driver_in(alloc, other, reference)?;
        room.spend(name.as_str())?;
        add_name(alloc, kept, name)?;
    }
    Ok(())
}

/// Adds `name`, unless it is there already.
fn add_name(alloc: Global, kept: &mut Kept, name: Name) -> Result<(), AllocError>
    requires { map string_bytes kept.old.seen.keys ≡ kept.old.names.items }
    ensures seen { OnOk result (map string_bytes kept.new.seen.keys ≡ kept.new.names.items) }
    ensures names { OnOk result (kept.new.names.items ≡ with_name kept.old.names.items name) }
{
    let added = kept.seen.insert(name.as_str().to_string(alloc)?)?;
    if added {
        kept.names.push(name)?;
    }
    Ok(())
}

/// Returns the flat name of the resource that `reference` names, where `cell` is the cell on its side.
fn driver_in(alloc: Global, cell: Cell, reference: &Reference) -> Result<Name, AllocError>
    ensures { IfOk result (λ name. name ≡ spec.name_in cell reference.now.side reference.now.name) }
{
    let name = reference.name.as_str();
    match reference.side {
        Side::Anywhere => Name::copy_of(alloc, name),
        Side::Here | Side::North | Side::East | Side::South | Side::West => {
            flat_name(alloc, cell, name)
        }
    }
}

/// Returns the flat name of the resource called `name` in `cell`.
fn flat_name(alloc: Global, cell: Cell, name: &str) -> Result<Name, AllocError>
    ensures { IfOk result (λ flat. flat ≡ spec.flat_name cell name.now) }
{
    let row = cell.row;
    let column = cell.column;
    Ok(Name::new(format!(in alloc; "r{row}c{column}_{name}")?))
}

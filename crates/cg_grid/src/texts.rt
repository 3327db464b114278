//! The texts of the faults of architecture files in reports.
ghost use Rattle.std.specs.Prelude.{◌≡◌, IfOk, string_bytes};
ghost use Rattle.cg_grid.specs.Texts as spec;

use crate::fault::{PartPlace, TilesFault, TilesPlace};
use crate::grid::Cell;
use cg_parts::arch_fault_text;
use std::alloc::{AllocError, Global};

/// Returns code, name and place of `fault`, for example `M4 UnknownTile row 1 column 1`. Out of memory has none of
/// them.
pub fn tiles_fault_text(alloc: Global, fault: &TilesFault) -> Result<String, AllocError>
    ensures { IfOk result (λ s. string_bytes s ≡ spec.tiles_fault_text fault.now) }
{
    match fault {
        TilesFault::Memory => Ok(String::new(alloc)),
        TilesFault::NotToml => String::from_str(alloc, "M1 NotToml file"),
        TilesFault::WrongShape(place) => place_text(alloc, "M2 WrongShape", *place),
        TilesFault::UnknownKey(place) => place_text(alloc, "M3 UnknownKey", *place),
        TilesFault::UnknownTile(cell) => cell_text(alloc, "M4 UnknownTile", *cell),
        TilesFault::RaggedGrid(row) => format!(in alloc; "M5 RaggedGrid row {row}"),
        TilesFault::UnknownOp(place) => part_text(alloc, "M6 UnknownOp", *place),
        TilesFault::Parts(fault) => arch_fault_text(alloc, fault),
    }
}

fn place_text(alloc: Global, code: &str, place: TilesPlace) -> Result<String, AllocError>
    ensures { IfOk result (λ s. string_bytes s ≡ spec.place_text code.now place) }
{
    match place {
        TilesPlace::File => format!(in alloc; "{code} file"),
        TilesPlace::Part(place) => part_text(alloc, code, place),
    }
}

fn part_text(alloc: Global, code: &str, place: PartPlace) -> Result<String, AllocError>
    ensures { IfOk result (λ s. string_bytes s ≡ spec.part_text code.now place) }
{
    let tile = char::from(place.tile);
    let part = place.part;
    format!(in alloc; "{code} tile {tile} part {part}")
}

fn cell_text(alloc: Global, code: &str, cell: Cell) -> Result<String, AllocError>
    ensures { IfOk result (λ s. string_bytes s ≡ spec.cell_text code.now cell) }
{
    let row = cell.row;
    let column = cell.column;
    format!(in alloc; "{code} row {row} column {column}")
}

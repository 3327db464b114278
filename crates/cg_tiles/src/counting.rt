//! Counts the resources that the tiles on a grid define, before these are made.
ghost use Rattle.std.specs.Prelude.{◌≡◌, ◌+◌, ◌<◌, MatchOption, nat_lt, sum_by};
ghost use Rattle.cg_model.specs.Limits.{most_resources};
ghost use Rattle.cg_tiles.specs.Counts as spec;
ghost use Rattle.cg_tiles.specs.Elements.{parts_for};

use cg_grid::{Part, Tile, WrittenArch, WrittenPart, tile_of};
use cg_model::{MOST_RESOURCES, Name};

/// Returns whether the cells of the grid define more resources than allowed.
pub(crate) fn has_many_resources(written: &WrittenArch) -> bool
    ensures { result ≡ nat_lt most_resources (spec.grid_resources written.now.tiles written.now.header.grid) }
{
    let tiles = written.tiles.as_slice();
    room_after_grid(MOST_RESOURCES, tiles, written.header.grid.as_slice()).is_none()
}

/// Returns the room for resources that is left after a grid, None where it has too many.
fn room_after_grid(room: usize, tiles: &[Tile], grid: &[Name]) -> Option<usize>
    ensures { MatchOption result (room < spec.grid_resources tiles.now grid.now) (λ left. left + spec.grid_resources tiles.now grid.now ≡ room) }
{
    let mut room = room;
    for cells in grid {
        room = room_after_row(room, tiles, cells.as_str().as_bytes())?;
    }
    Some(room)
}

fn room_after_row(room: usize, tiles: &[Tile], cells: &[u8]) -> Option<usize>
    ensures { MatchOption result (room < spec.row_resources tiles.now cells.now) (λ left. left + spec.row_resources tiles.now cells.now ≡ room) }
{
    let mut room = room;
    for letter in cells {
        room = room_after_cell(room, tiles, *letter)?;
    }
    Some(room)
}

fn room_after_cell(room: usize, tiles: &[Tile], letter: u8) -> Option<usize>
    ensures { MatchOption result (room < spec.part_resources (parts_for tiles.now letter)) (λ left. left + spec.part_resources (parts_for tiles.now letter) ≡ room) }
{
    match tile_of(tiles, letter) {
        Some(tile) => room_after_parts(room, tile.parts.as_slice()),
        None => Some(room),
    }
}

fn room_after_parts(room: usize, parts: &[WrittenPart]) -> Option<usize>
    ensures { MatchOption result (room < spec.part_resources parts.now) (λ left. left + spec.part_resources parts.now ≡ room) }
{
    let mut room = room;
    for part in parts {
        room = room.checked_sub(resources_of(&part.part))?;
    }
    Some(room)
}

/// Returns the number of resources that `part` defines: itself, or its ports and its out.
fn resources_of(part: &Part) -> usize
    ensures { result ≡ spec.resources_of part.now }
{
    match part {
        Part::Wire { .. } | Part::Register { .. } => 1,
        Part::Unit { ports, .. } => ports.as_slice().len() + 1,
    }
}

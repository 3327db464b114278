//! Checks for the faults M3 to M6, and for a grid that is too large.
ghost use Rattle.std.specs.Prelude.{◌≡◌};
ghost use Rattle.std.specs.Option.{option_copied};
ghost use Rattle.cg_model.specs.First.{first_from};
ghost use Rattle.cg_grid.specs.Rules as spec;

use crate::fault::{PartPlace, TilesFault, TilesPlace};
use crate::grid::Cell;
use crate::written::{Part, Tile, WrittenArch, WrittenPart};
use cg_model::{MOST_SIDE, Name};
use cg_parts::{ArchFault, TooLargePlace};

/// Why a part is at fault.
#[derive(Clone, Copy)]
pub enum PartRule {
    /// Its table has a key that isn't one of its shape.
    UnknownKey,
    /// Its list of operations has an item that isn't the name of an operation.
    UnknownOp,
}

/// Returns the lowest of M3 to M6 that applies, at its first place, or else A1 for the grid.
#[tactic(auto, unfolding(crate::specs::Rules::first_fault))]
pub fn first_fault(written: &WrittenArch) -> Option<TilesFault>
    ensures { result ≡ spec.first_fault written.now }
{
    let tiles = written.tiles.as_slice();
    let grid = written.header.grid.as_slice();
    if let Some(place) = unknown_key(written) {
        return Some(TilesFault::UnknownKey(place));
    }
    if let Some(cell) = unknown_tile(tiles, grid) {
        return Some(TilesFault::UnknownTile(cell));
    }
    if let Some(row) = ragged_row(grid) {
        return Some(TilesFault::RaggedGrid(row));
    }
    if let Some(place) = first_part(PartRule::UnknownOp, tiles) {
        return Some(TilesFault::UnknownOp(place));
    }
    large_grid(grid)
}

fn unknown_key(written: &WrittenArch) -> Option<TilesPlace>
    ensures { result ≡ spec.unknown_key written.now }
{
    if written.header.other_keys {
        return Some(TilesPlace::File);
    }
    first_part(PartRule::UnknownKey, written.tiles.as_slice()).map(TilesPlace::Part)
}

/// Returns the first part with the fault `rule`, in the order of the tiles.
fn first_part(rule: PartRule, tiles: &[Tile]) -> Option<PartPlace>
    ensures { result ≡ spec.first_part (spec.applies rule) tiles.now }
{
    for tile in tiles {
        if let Some(part) = first_in(rule, tile.parts.as_slice()) {
            return Some(PartPlace {
                tile: tile.letter,
                part,
            });
        }
    }
    None
}

fn first_in(rule: PartRule, parts: &[WrittenPart]) -> Option<usize>
    ensures { result ≡ first_from (λ k p. spec.applies rule p) 0 parts.now }
{
    for (number, part) in parts.iter().enumerate() {
        if applies(rule, part) {
            return Some(number);
        }
    }
    None
}

fn applies(rule: PartRule, part: &WrittenPart) -> bool
    ensures { result ≡ spec.applies rule part.now }
{
    match rule {
        PartRule::UnknownKey => part.other_keys,
        PartRule::UnknownOp => match part.part {
            Part::Wire { .. } | Part::Register { .. } => false,
            Part::Unit { other_ops, .. } => other_ops,
        },
    }
}

/// Returns the tile of `letter`.
pub fn tile_of(tiles: &[Tile], letter: u8) -> Option<&Tile>
    ensures { option_copied result ≡ spec.tile_of tiles.now letter }
{
    for tile in tiles {
        if tile.letter == letter {
            return Some(tile);
        }
    }
    None
}

/// Returns the first cell with a letter that no tile has.
fn unknown_tile(tiles: &[Tile], grid: &[Name]) -> Option<Cell>
    ensures { result ≡ spec.unknown_tile tiles.now 0 grid.now }
{
    for (row, cells) in grid.iter().enumerate() {
        if let Some(column) = unknown_in(tiles, cells.as_str().as_bytes()) {
            return Some(Cell { row, column });
        }
    }
    None
}

fn unknown_in(tiles: &[Tile], cells: &[u8]) -> Option<usize>
    ensures { result ≡ first_from (λ c cell. spec.is_unknown tiles.now cell) 0 cells.now }
{
    for (column, cell) in cells.iter().enumerate() {
        if is_unknown(tiles, *cell) {
            return Some(column);
        }
    }
    None
}

fn is_unknown(tiles: &[Tile], cell: u8) -> bool
    ensures { result ≡ spec.is_unknown tiles.now cell }
{
    cell != b'.' && tile_of(tiles, cell).is_none()
}

/// Returns the number of columns of a grid: the length of its first row.
pub fn columns(grid: &[Name]) -> usize
    ensures { result ≡ spec.columns grid.now }
{
    match grid {
        [first, ..] => first.as_str().len(),
        [] => 0,
    }
}

/// Returns the first row that is empty or differs in length from the first one; row 0 where the grid has no rows.
fn ragged_row(grid: &[Name]) -> Option<usize>
    ensures { result ≡ spec.ragged_row grid.now }
{
    if grid.is_empty() {
        return Some(0);
    }
    first_ragged(columns(grid), grid)
}

fn first_ragged(most: usize, grid: &[Name]) -> Option<usize>
    ensures { result ≡ first_from (λ r row. spec.is_ragged most row) 0 grid.now }
{
    for (row, cells) in grid.iter().enumerate() {
        if is_ragged(most, cells.as_str()) {
            return Some(row);
        }
    }
    None
}

fn is_ragged(most: usize, cells: &str) -> bool
    ensures { result ≡ spec.is_ragged most cells.now }
{
    cells.is_empty() || cells.len() != most
}

fn large_grid(grid: &[Name]) -> Option<TilesFault>
    ensures { result ≡ spec.large_grid grid.now }
{
    if grid.len() > MOST_SIDE || columns(grid) > MOST_SIDE {
        return Some(TilesFault::Parts(ArchFault::TooLarge(TooLargePlace::Grid)));
    }
    None
}

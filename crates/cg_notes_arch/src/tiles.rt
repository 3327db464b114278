//! All that is wrong in the parts of tiles.

use crate::files::ArchFile;
use cg_lints::{At, Rule, Slips};
use cg_spans::{key_line, key_line_in, tile_part_at};
use std::alloc::{AllocError, Global};
use toml::Value;

/// A part of a tile that is being checked.
#[derive(Clone, Copy, Drop)]
pub(crate) struct Here<'a> {
    /// The file.
    bytes: &'a [u8],
    /// The byte at which the part begins.
    pub(crate) at: usize,
    /// The letter of the tile.
    pub(crate) tile: &'a str,
    /// The number of the part, from 0.
    number: usize,
    /// Whether the grid uses the tile.
    is_used: bool,
    /// Whether the part is an item of a list, so that its keys have no lines of their own.
    is_listed: bool,
}

impl Here<'_> {
    /// Adds to `slips` that `text`, which breaks `rule`, is wrong at byte `at`. Faults of elements, of their names and
    /// units, are left out if the grid doesn't use the tile.
    pub(crate) fn add(
        self,
        slips: &mut Slips,
        rule: Rule,
        at: usize,
        text: &str,
    ) -> Result<(), AllocError> {
        if matches!(rule, Rule::BadName | Rule::BadUnit) && !self.is_used {
            return Ok(());
        }
        let Here { tile, number, .. } = self;
        let text = format!(in slips.alloc; "tile {tile} part {number}: {text}")?;
        slips.add(rule, At::Byte(at), text)
    }

    /// Adds to `slips` that `text` is wrong with the shape of the value of `key`.
    pub(crate) fn add_shape(
        self,
        slips: &mut Slips,
        key: &str,
        text: &str,
    ) -> Result<(), AllocError> {
        self.add(slips, Rule::WrongShape, self.place_of(key), text)
    }

    /// Returns the byte of the line that sets `key` in the part, or the byte at which the part begins if there is no
    /// such line.
    pub(crate) fn place_of(self, key: &str) -> usize {
        if self.is_listed {
            return self.at;
        }
        key_line_in(self.bytes, self.at, key).unwrap_or(self.at)
    }
}

/// Returns the faults in the parts of the tiles of `file`, by tile and part.
pub(crate) fn arch_slips(alloc: Global, file: ArchFile<'_>) -> Result<Slips, AllocError> {
    let mut slips = Slips::new(alloc);
    let Some(tiles) = file.table.get("tiles") else {
        return Ok(slips);
    };
    let Some(tiles) = tiles.as_table() else {
        return Ok(slips);
    };
    for (tile, parts) in tiles.iter() {
        // Other names aren't tiles, and there may be many.
        match parts.as_array() {
            Some(parts) if tile.as_str().len() == 1 => {
                note_tile(&mut slips, file, tile.as_str(), parts.as_slice())?;
            }
            _ => {}
        }
    }
    Ok(slips)
}

/// Checks whether the grid of `table`, an architecture, uses the tile `tile`.
fn is_in_grid(table: &Value, tile: &str) -> bool {
    let Some(grid) = table.get("grid") else {
        return false;
    };
    match grid.as_array() {
        Some(rows) => rows.iter().any(|row| row.as_str().is_some_and(|cells| cells.contains(tile))),
        None => false,
    }
}

/// Adds to `slips` the faults of `parts`, the parts of `tile` in `file`.
fn note_tile(
    slips: &mut Slips,
    file: ArchFile<'_>,
    tile: &str,
    parts: &[Value],
) -> Result<(), AllocError> {
    let bytes = file.bytes;
    let is_used = is_in_grid(file.table, tile);
    let mut from = 0usize;
    let line = line_of(bytes, tile);
    for (number, part) in parts.iter().enumerate() {
        let Some(at) = line.or(part_from(bytes, tile, from)) else {
            return Ok(());
        };
        let here = Here {
            bytes,
            at,
            tile,
            number,
            is_used,
            is_listed: line.is_some(),
        };
        here.note_part(slips, part)?;
        from = at.saturating_add(1);
    }
    Ok(())
}

/// Returns the byte at which the line of `bytes` begins that sets `tile`, if its parts have no headers of their own.
fn line_of(bytes: &[u8], tile: &str) -> Option<usize> {
    match tile_part_at(bytes, tile, 0) {
        Some(_) => None,
        None => key_line(bytes, tile),
    }
}

/// Returns the byte of `bytes`, from byte `from` on, at which the first part of `tile` begins.
fn part_from(bytes: &[u8], tile: &str, from: usize) -> Option<usize> {
    let at = tile_part_at(bytes.get(from..)?, tile, 0)?;
    Some(from.saturating_add(at))
}

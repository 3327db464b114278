//! Faults of architectures, by the part of a tile, an element or a cell.

use crate::drivers::wrong_driver;
use crate::files::ArchFile;
use crate::heads::find_key;
use crate::names::{parts_of, repeated_name, tile_at};
use cg_grid::{Cell, PartPlace};
use cg_parts::{ArchFault, DriverPlace};
use cg_spans::{Finding, key_line, key_line_in, tile_part_at};
use std::alloc::{AllocError, Global};
use toml::Value;

/// The bit by which a capital and its small letter differ.
const CASE_BIT: u8 = 0x20;

/// A part of a tile.
#[derive(Clone, Copy, Drop)]
pub(crate) struct Part<'a> {
    /// The letter of the tile.
    pub(crate) tile: &'a str,
    /// The number of the part, from 0.
    pub(crate) number: usize,
}

impl Part<'_> {
    /// Returns the byte of `bytes` at which the part begins, or at which the line with all parts of its tile begins.
    fn at(self, bytes: &[u8]) -> Option<usize> {
        tile_part_at(bytes, self.tile, self.number).or(key_line(bytes, self.tile))
    }

    /// Returns the byte of `bytes` at which the drivers of the part are set, in the line of its key `from` or `ports`;
    /// the byte of the part itself if its keys have no lines.
    pub(crate) fn drivers_at(self, bytes: &[u8]) -> Option<usize> {
        let Some(at) = tile_part_at(bytes, self.tile, self.number) else {
            return key_line(bytes, self.tile);
        };
        key_line_in(bytes, at, "from")
            .or(key_line_in(bytes, at, "ports"))
            .or(Some(at))
    }

    /// Returns the finding that `what` is wrong with the part, at byte `at` of `bytes`; None if there is no such byte.
    pub(crate) fn finding(
        self,
        alloc: Global,
        bytes: &[u8],
        at: Option<usize>,
        what: &str,
    ) -> Result<Option<Finding>, AllocError> {
        let Some(at) = at else {
            return Ok(None);
        };
        let Part { tile, number } = self;
        let text = format!(in alloc; "tile {tile} part {number}: {what}")?;
        Ok(Some(Finding::at(bytes, at, text)))
    }
}

/// Returns the finding with `sentence` on the part at `place` in the architecture file `bytes`.
pub(crate) fn find_tile_part(
    alloc: Global,
    bytes: &[u8],
    place: PartPlace,
    sentence: &str,
) -> Result<Option<Finding>, AllocError> {
    let letter = char::from(place.tile);
    let tile = format!(in alloc; "{letter}")?;
    let part = Part {
        tile: tile.as_str(),
        number: place.part,
    };
    part.finding(alloc, bytes, part.at(bytes), sentence)
}

/// The origin of an element of an architecture.
#[derive(Clone, Copy, Drop)]
pub(crate) struct Origin<'a> {
    /// Its cell.
    pub(crate) cell: Cell,
    /// Its part of the tile of that cell.
    pub(crate) part: Part<'a>,
}

/// Returns the finding of `fault` at element number `element` of `file`.
pub(crate) fn find_element(
    alloc: Global,
    file: ArchFile<'_>,
    element: usize,
    fault: &ArchFault,
) -> Result<Option<Finding>, AllocError> {
    let Some(Origin { part, .. }) = origin_of(file.table, element) else {
        return Ok(None);
    };
    let what = wrong_element(alloc, file.table, part, fault)?;
    part.finding(alloc, file.bytes, part.at(file.bytes), what.as_str())
}

/// Returns the finding of `fault` at `place`, a driver of an element of `file`.
pub(crate) fn find_driver(
    alloc: Global,
    file: ArchFile<'_>,
    place: &DriverPlace,
    fault: &ArchFault,
) -> Result<Option<Finding>, AllocError> {
    let Some(origin) = origin_of(file.table, place.element) else {
        return Ok(None);
    };
    let what = wrong_driver(alloc, file.table, origin, place.name.as_str(), fault)?;
    let at = origin.part.drivers_at(file.bytes);
    origin.part.finding(alloc, file.bytes, at, what.as_str())
}

/// Returns the message of `fault` on an element that comes from `part` in `table`, an architecture.
fn wrong_element(
    alloc: Global,
    table: &Value,
    part: Part<'_>,
    fault: &ArchFault,
) -> Result<String, AllocError> {
    let sentence = match fault {
        ArchFault::RepeatedName(_) => match repeated_name(alloc, table, part)? {
            Some(text) => return Ok(text),
            None => "an earlier element has one of its names",
        },
        ArchFault::BadName(_) =>
            "a name is a letter or _, followed by letters, digits or _, with at most 40 characters, including the prefix of its cell, such as r0c0_",
        _ =>
            "a latency is 1 to 4, and a unit has operations and the number of ports that they need, at most three",
    };
    String::from_str(alloc, sentence)
}

/// Returns the origin of element number `element` of the architecture `table`: elements are counted through the tiles
/// of the grid, row by row.
fn origin_of(table: &Value, element: usize) -> Option<Origin<'_>> {
    let mut left = element;
    for (row, cells) in table.get("grid")?.as_array()?.iter().enumerate() {
        let cells = cells.as_str()?;
        for column in 0..cells.len() {
            let tile = cells.get(column..column.saturating_add(1))?;
            let count = parts_of(table, tile).unwrap_or(&[]).len();
            if left < count {
                let cell = Cell { row, column };
                let part = Part { tile, number: left };
                return Some(Origin { cell, part });
            }
            left = left.saturating_sub(count);
        }
    }
    None
}

/// Returns the finding that `cell` of the grid of `file` has no tile.
pub(crate) fn find_letter(
    alloc: Global,
    file: ArchFile<'_>,
    cell: Cell,
) -> Result<Option<Finding>, AllocError> {
    let Some(letter) = tile_at(file.table, cell) else {
        return Ok(None);
    };
    let text = match other_case(file.table, letter) {
        Some(other) => format!(in alloc; "there is no tile {letter}, did you mean {other}?")?,
        None => format!(in alloc;
            "there is no tile {letter}: its parts begin with [[tiles.{letter}]]"
        )?,
    };
    find_key(alloc, file.bytes, "grid", text.as_str())
}

/// Returns the tile of `table`, an architecture, whose letter is `letter` in the other case.
fn other_case<'a>(table: &'a Value, letter: &str) -> Option<&'a str> {
    for (tile, _) in table.get("tiles")?.as_table()?.iter() {
        let tile = tile.as_str();
        match (tile.as_bytes(), letter.as_bytes()) {
            ([one], [other]) if *one ^ *other == CASE_BIT => return Some(tile),
            _ => {}
        }
    }
    None
}

//! Top-level keys of architecture files.

use crate::files::ArchFile;
use cg_lints::{missing, unknown_key};
use cg_spans::{Finding, key_line, table_line, tile_part_at, unknown_key_line};
use std::alloc::{AllocError, Global};
use toml::Value;

/// The kind that a value must have.
#[derive(Clone, Copy, Drop)]
enum Kind {
    /// A text.
    Text,
    /// The name of the format.
    Format,
    /// A whole number of 32 bits.
    Number,
    /// A list of texts.
    Texts,
    /// True or false.
    Flag,
    /// A table.
    Table,
}

impl Kind {
    /// Checks whether `value` is of this kind.
    fn has(self, value: &Value) -> bool {
        match self {
            Kind::Text => value.as_str().is_some(),
            Kind::Format => value.as_str() == Some("cga1"),
            Kind::Number => match value.as_integer() {
                Some(number) => number >= 0 && number <= i64::from(u32::MAX),
                None => false,
            },
            Kind::Texts => match value.as_array() {
                Some(items) => items.iter().all(|item| item.as_str().is_some()),
                None => false,
            },
            Kind::Flag => value.as_bool().is_some(),
            Kind::Table => value.as_table().is_some(),
        }
    }
}

/// The top-level keys, each with the kind of its value and the sentence that states this kind.
static HEADS: [(&'static str, Kind, &'static str); 8] = [
    ("format", Kind::Format, "\"format\" must be \"cga1\""),
    ("name", Kind::Text, "\"name\" must be a string"),
    (
        "contexts",
        Kind::Number,
        "\"contexts\" must be a number from 1 to 64",
    ),
    (
        "memory",
        Kind::Number,
        "\"memory\" must be a number of words, up to 1048576",
    ),
    (
        "grid",
        Kind::Texts,
        "\"grid\" must be a list of strings, one per row",
    ),
    ("torus", Kind::Flag, "\"torus\" must be true or false"),
    (
        "hub",
        Kind::Texts,
        "\"hub\" must be a list of names, as [\"r0c0_h\"]",
    ),
    (
        "tiles",
        Kind::Table,
        "\"tiles\" must be tables, one per part: [[tiles.A]]",
    ),
];

/// The names of the top-level keys.
const KEYS: [&str; 8] = [
    "format", "name", "contexts", "memory", "grid", "torus", "hub", "tiles",
];

/// The keys that an architecture must have, each with an example of a line that sets it.
const NEEDED: [(&str, &str); 4] = [
    ("format", "format = \"cga1\""),
    ("name", "name = \"mine\""),
    ("contexts", "contexts = 4"),
    ("grid", "grid = [\"A\"]"),
];

/// Returns the finding with `sentence` on the key `key` of the architecture file `bytes`.
pub(crate) fn find_key(
    alloc: Global,
    bytes: &[u8],
    key: &str,
    sentence: &str,
) -> Result<Option<Finding>, AllocError> {
    match key_line(bytes, key) {
        Some(at) => at_byte(alloc, bytes, at, sentence),
        None => Ok(None),
    }
}

/// Returns the finding with `sentence` at byte `at` of `bytes`.
fn at_byte(
    alloc: Global,
    bytes: &[u8],
    at: usize,
    sentence: &str,
) -> Result<Option<Finding>, AllocError> {
    let text = String::from_str(alloc, sentence)?;
    Ok(Some(Finding::at(bytes, at, text)))
}

/// Returns the finding on the first key before the tiles of `bytes`, an architecture file, that isn't one of the
/// format's; if there is none, the one with `sentence` at the beginning of the file.
pub(crate) fn find_unknown_key(
    alloc: Global,
    bytes: &[u8],
    sentence: Option<&str>,
) -> Result<Option<Finding>, AllocError> {
    match (unknown_key_line(bytes, 0, &KEYS), sentence) {
        (Some((at, key)), _) => {
            let text = unknown_key(alloc, key, &KEYS)?;
            Ok(Some(Finding::at(bytes, at, text)))
        }
        (None, Some(sentence)) => at_byte(alloc, bytes, 0, sentence),
        (None, None) => Ok(None),
    }
}

/// Returns the first thing that is wrong with the keys before the tiles of `file`, or with the names of its tiles.
pub(crate) fn find_head(alloc: Global, file: ArchFile<'_>) -> Result<Option<Finding>, AllocError> {
    let ArchFile { bytes, table } = file;
    if let Some(finding) = find_unknown_key(alloc, bytes, None)? {
        return Ok(Some(finding));
    }
    for (key, example) in &NEEDED {
        if table.get(*key).is_none() {
            return Ok(Some(missing(alloc, key, example)?));
        }
    }
    for (key, kind, sentence) in &HEADS {
        if table.get(*key).is_some_and(|value| !kind.has(value)) {
            return at_byte(alloc, bytes, key_line(bytes, key).unwrap_or(0), sentence);
        }
    }
    find_wrong_letter(alloc, file)
}

/// Returns what is wrong with the letters of the grid and the tiles of `file`.
fn find_wrong_letter(alloc: Global, file: ArchFile<'_>) -> Result<Option<Finding>, AllocError> {
    let ArchFile { bytes, table } = file;
    if has_other_cell(table) {
        let at = key_line(bytes, "grid").unwrap_or(0);
        let sentence = "a cell of the grid is a letter, or a dot where it is empty";
        return at_byte(alloc, bytes, at, sentence);
    }
    let Some(tiles) = table.get("tiles").and_then(|tiles| tiles.as_table()) else {
        let sentence = "there are no tiles: a part of the tile A begins with [[tiles.A]]";
        return at_byte(alloc, bytes, 0, sentence);
    };
    for (tile, parts) in tiles.iter() {
        let tile = tile.as_str();
        if !is_letter(tile) {
            let at = tile_part_at(bytes, tile, 0).unwrap_or(0);
            return at_byte(alloc, bytes, at, "the name of a tile is a single letter");
        }
        if parts.as_array().is_none() {
            let at = table_line(bytes, tile)
                .or(key_line(bytes, tile))
                .unwrap_or(0);
            let text = format!(in alloc;
                "the parts of tile {tile} are a list: each begins with [[tiles.{tile}]]"
            )?;
            return Ok(Some(Finding::at(bytes, at, text)));
        }
    }
    Ok(None)
}

/// Checks whether the grid of `table` has a cell that is neither a letter nor a point.
fn has_other_cell(table: &Value) -> bool {
    match table.get("grid").and_then(|grid| grid.as_array()) {
        Some(rows) => rows.iter().any(|row| match row.as_str() {
            Some(row) => row
                .bytes()
                .any(|byte| !byte.is_ascii_alphabetic() && byte != b'.'),
            None => false,
        }),
        None => false,
    }
}

/// Checks whether `tile` is one letter.
fn is_letter(tile: &str) -> bool {
    tile.len() == 1 && tile.bytes().all(|byte| byte.is_ascii_alphabetic())
}

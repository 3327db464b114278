//! Reads the description of an architecture from a TOML table.
ghost use Rattle.std.specs.Prelude.{◌≡◌, map, option_map, slice_index};
ghost use Rattle.std.specs.List.{list_all};
ghost use Rattle.toml.specs.Data as toml;
ghost use Rattle.toml.specs.View.{view, table_view};
ghost use Rattle.cg_reading.specs.Reads.{IsRead, IsReadAt};
ghost use Rattle.cg_grid.specs.Written as spec;

use crate::fault::{PartPlace, TilesPlace};
use crate::part_reading::PartReader;
use crate::written::{Header, Tile, WrittenArch};
use cg_model::{Items, Name};
use cg_parts::Names;
use cg_reading::{ItemReader, Misfit, WRONG_SHAPE, all_of, all_or_first};
use cg_toml::{
    flag_or, has_other_keys, items_at, items_in, items_or_none, members_at, text_at, word_at,
    word_or,
};
use std::alloc::Global;
use toml::{Table, Value};

/// The misfit of a file that has a wrong shape outside of the parts of tiles.
const WRONG_FILE: Misfit<TilesPlace> = Misfit::WrongShape(TilesPlace::File);

/// Returns the description in the table, or the first place of a wrong shape.
#[tactic(auto, unfolding(crate::specs::Written::written_of))]
pub fn written_of(alloc: Global, value: &Value) -> Result<WrittenArch, Misfit<TilesPlace>>
    ensures { IsReadAt (spec.written_of (view value.now)) result }
{
    if !has_format(value) {
        return Err(WRONG_FILE);
    }
    let header = header_in(alloc, value).map_err(|misfit| misfit.at(|_| TilesPlace::File))?;
    let tiles = tiles_at(value).ok_or(WRONG_FILE)?;
    let tiles = tiles_in(alloc, tiles).map_err(|misfit| misfit.at(TilesPlace::Part))?;
    Ok(WrittenArch { header, tiles })
}

fn has_format(value: &Value) -> bool
    ensures { result ≡ spec.has_format (view value.now) }
{
    match text_at(value, "format") {
        Some(text) => text == "cga1",
        None => false,
    }
}

/// Returns the description in the table except its tiles.
fn header_in(alloc: Global, value: &Value) -> Result<Header, Misfit<()>>
    ensures { IsRead (spec.header_in (view value.now)) result }
{
    let name = text_at(value, "name").ok_or(WRONG_SHAPE)?;
    let contexts = word_at(value, "contexts").ok_or(WRONG_SHAPE)?;
    let memory = word_or(value, "memory", 0).ok_or(WRONG_SHAPE)?;
    let torus = flag_or(value, "torus", false).ok_or(WRONG_SHAPE)?;
    let hub = hub_in(alloc, value)?;
    let grid = grid_in(alloc, value)?;
    let other_keys = has_other_keys(
        value,
        &[
            "format", "name", "contexts", "memory", "torus", "hub", "grid", "tiles",
        ],
    );
    Ok(Header {
        name: Name::copy_of(alloc, name)?,
        contexts,
        memory,
        torus,
        hub,
        grid,
        other_keys,
    })
}

fn hub_in(alloc: Global, value: &Value) -> Result<Names, Misfit<()>>
    ensures { IsRead (spec.hub_in (view value.now)) result }
{
    let items = items_or_none(value, "hub").ok_or(WRONG_SHAPE)?;
    all_of::<TextReader>(alloc, items)
}

fn grid_in(alloc: Global, value: &Value) -> Result<Names, Misfit<()>>
    ensures { IsRead (spec.grid_in (view value.now)) result }
{
    let items = items_at(value, "grid").ok_or(WRONG_SHAPE)?;
    all_of::<RowReader>(alloc, items)
}

/// Reads texts.
pub(crate) struct TextReader;

impl ItemReader for TextReader {
    type Value = Value;

    type Item = Name;

    ghost Data = { toml.Data };

    ghost data_of = { view };

    ghost item_in = { toml.as_str };

    fn read(alloc: Global, value: &Value) -> Result<Name, Misfit<()>> {
        let text = value.as_str().ok_or(WRONG_SHAPE)?;
        Ok(Name::copy_of(alloc, text)?)
    }
}

/// Reads rows of the grid.
struct RowReader;

impl ItemReader for RowReader {
    type Value = Value;

    type Item = Name;

    ghost Data = { toml.Data };

    ghost data_of = { view };

    ghost item_in = { spec.row_in };

    fn read(alloc: Global, value: &Value) -> Result<Name, Misfit<()>> {
        let text = value.as_str().ok_or(WRONG_SHAPE)?;
        if !is_row(text) {
            return Err(WRONG_SHAPE);
        }
        Ok(Name::copy_of(alloc, text)?)
    }
}

fn is_row(text: &str) -> bool
    ensures { result ≡ list_all spec.is_cell text.now }
{
    text.bytes().all(|byte| is_cell(byte))
}

fn is_cell(byte: u8) -> bool
    ensures { result ≡ spec.is_cell byte }
{
    byte == b'.' || is_letter(byte)
}

fn is_letter(byte: u8) -> bool
    ensures { result ≡ spec.is_letter byte }
{
    matches!(byte, b'A'..=b'Z' | b'a'..=b'z')
}

/// Returns the table `tiles`, where each key is one letter and each value an array.
fn tiles_at(value: &Value) -> Option<&Table>
    ensures { option_map (λ tiles. table_view tiles.now) result ≡ spec.tiles_at (view value.now) }
{
    match members_at(value, "tiles") {
        Some(tiles) => if are_tiles(tiles) { Some(tiles) } else { None },
        None => None,
    }
}

fn are_tiles(tiles: &Table) -> bool
    ensures { result ≡ spec.are_tiles (table_view tiles.now) }
{
    for (key, value) in tiles {
        if !is_tile_key(key.as_str()) || value.as_array().is_none() {
            return false;
        }
    }
    true
}

fn is_tile_key(key: &str) -> bool
    ensures { result ≡ spec.is_tile_key key.now }
{
    match key.as_bytes() {
        [byte] => is_letter(*byte),
        _ => false,
    }
}

/// Returns the tiles in the order of their letters, or the first malformed part.
fn tiles_in(alloc: Global, members: &Table) -> Result<Items<Tile>, Misfit<PartPlace>>
    ensures { IsReadAt (spec.tiles_in (table_view members.now)) result }
{
    let mut tiles = Vec::new(alloc);
    for (key, value) in members {
        tiles.push(tile_in(alloc, key.as_str(), value)?)?;
    }
    Ok(Items::new(tiles))
}

/// Returns the tile at `key`, or the first malformed part.
fn tile_in(alloc: Global, key: &str, value: &Value) -> Result<Tile, Misfit<PartPlace>>
    ensures { IsReadAt (spec.tile_in key.now (view value.now)) result }
{
    let letter = first_byte(key);
    let parts = all_or_first::<PartReader>(alloc, items_of(value)).map_err(|misfit| misfit.at(
        |part| PartPlace { tile: letter, part },
    ))?;
    Ok(Tile { letter, parts })
}

fn first_byte(key: &str) -> u8
    ensures { result ≡ slice_index key.now 0 }
{
    match key.as_bytes() {
        [first, ..] => *first,
        [] => 0,
    }
}

fn items_of(value: &Value) -> &[Value]
    ensures { map view result.now ≡ spec.items_of (view value.now) }
{
    match items_in(value) {
        Some(items) => items,
        None => &[],
    }
}

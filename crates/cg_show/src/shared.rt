//! The elements that all panels share: empty tiles, chips and boxes, or the empty cells of a column and the names of
//! its rows.
ghost use Rattle.std.specs.Prelude.{◌≡◌, ◌++◌, ◌<◌, OnOk, length};
ghost use Rattle.cg_list_laws.specs.Below.{lists_below};
ghost use Rattle.cg_layout.specs.Layout.{frame_of, seat, box};
ghost use Rattle.cg_layout.specs.Tiles.{tile_of};
ghost use Rattle.cg_show.specs.Panels as spec;

use crate::words::resource_name;
use cg_arch::Arch;
use cg_layout::{Area, Layout, Spot, push_rect, push_words};
use cg_occupancy::Marks;
use std::alloc::{AllocError, Global};

/// Checks whether `resource` is the first of its tile: the one before it is in another.
fn begins_tile(layout: &Layout<'_>, resource: u32) -> bool
    ensures { result ≡ spec.begins_tile layout.now resource }
{
    let tile = layout.tile(resource);
    let before = layout.tile(resource.saturating_sub(1));
    !(0 < resource && before == tile)
}

/// Adds the frame of `tile`, which begins at `spot` and is `height` high, to `text`, with its row and column.
fn push_tile(
    alloc: Global,
    text: &mut Vec<u8>,
    spot: Spot,
    height: u32,
    tile: u32,
) -> Result<(), AllocError>
    ensures { OnOk result (text.new.items ≡ text.old.items ++ spec.tile_text spot height tile) }
{
    let x = u64::from(spot.x);
    let y = u64::from(spot.y);
    let high = u64::from(height);
    let area = Area {
        x,
        y,
        width: 170,
        height: high,
    };
    push_rect(alloc, text, "t", area)?;
    let row = tile / 32;
    let column = tile % 32;
    let words = format!(in alloc; "{row},{column}")?;
    push_words(alloc, text, "s", x + 5, y + 11, words.as_str())?;
    Ok(())
}

/// Adds the frame of the tile of `resource` to `text`, where `resource` is the first of its tile.
fn push_frame(
    alloc: Global,
    text: &mut Vec<u8>,
    layout: &Layout<'_>,
    resource: u32,
) -> Result<(), AllocError>
    ensures { OnOk result (text.new.items ≡ text.old.items ++ spec.frame_text layout.now (frame_of layout.now) resource) }
{
    if begins_tile(layout, resource) {
        let spot = layout.corner(resource);
        push_tile(
            alloc,
            text,
            spot,
            layout.tile_height(),
            layout.tile(resource),
        )
    } else {
        Ok(())
    }
}

/// Adds the empty chip that begins at `spot` to `text`.
fn push_chip(alloc: Global, text: &mut Vec<u8>, spot: Spot) -> Result<(), AllocError>
    ensures { OnOk result (text.new.items ≡ text.old.items ++ spec.chip_text spot) }
{
    let x = u64::from(spot.x);
    let y = u64::from(spot.y);
    let area = Area {
        x,
        y,
        width: 33,
        height: 12,
    };
    push_rect(alloc, text, "e", area)?;
    Ok(())
}

/// Adds the empty box that begins at `spot` to `text`.
fn push_box(alloc: Global, text: &mut Vec<u8>, spot: Spot) -> Result<(), AllocError>
    ensures { OnOk result (text.new.items ≡ text.old.items ++ spec.box_text spot) }
{
    let x = u64::from(spot.x);
    let y = u64::from(spot.y);
    let area = Area {
        x,
        y,
        width: 84,
        height: 36,
    };
    push_rect(alloc, text, "u", area)?;
    Ok(())
}

/// Adds the empty tiles and their empty chips to `text`.
pub(crate) fn push_tiles(
    alloc: Global,
    text: &mut Vec<u8>,
    layout: &Layout<'_>,
) -> Result<(), AllocError>
    ensures { OnOk result (text.new.items ≡ text.old.items ++ spec.tiles_text layout.now) }
{
    for resource in 0..layout.arch().resources().len() {
        push_frame(alloc, text, layout, resource as u32)?;
        push_chip(alloc, text, layout.seat(resource as u32))?;
    }
    Ok(())
}

/// Adds the empty boxes of all units to `text`.
pub(crate) fn push_boxes(
    alloc: Global,
    text: &mut Vec<u8>,
    layout: &Layout<'_>,
) -> Result<(), AllocError>
    ensures { OnOk result (text.new.items ≡ text.old.items ++ spec.boxes_text layout.now) }
{
    for unit in 0..layout.arch().units().len() {
        push_box(alloc, text, layout.unit_box(unit as u32))?;
    }
    Ok(())
}

/// Adds the empty cells of a column of the resources of `arch` to `text`.
pub(crate) fn push_column(alloc: Global, text: &mut Vec<u8>, arch: &Arch) -> Result<(), AllocError>
    ensures { OnOk result (text.new.items ≡ text.old.items ++ spec.column_text arch.now) }
{
    for resource in 0..arch.resources().len() {
        let area = Area {
            x: 0,
            y: 14 + 18 * resource as u64,
            width: 100,
            height: 16,
        };
        push_rect(alloc, text, "e", area)?;
    }
    Ok(())
}

/// Adds the names of the rows of a column to `text`.
pub(crate) fn push_rows(
    alloc: Global,
    text: &mut Vec<u8>,
    marks: &Marks<'_>,
) -> Result<(), AllocError>
    ensures { OnOk result (text.new.items ≡ text.old.items ++ spec.rows_text marks.now) }
{
    for resource in 0..marks.arch().resources().len() {
        let name = resource_name(marks, resource as u32);
        push_words(alloc, text, "a", 250, 96 + 18 * resource as u64, name)?;
    }
    Ok(())
}

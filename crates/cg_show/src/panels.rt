//! Panels, one for each slot.
ghost use Rattle.std.specs.Prelude.{◌≡◌, ◌++◌, ◌<◌, ◌≤◌, IfOk, OnOk, length, true, false, codes};
ghost use Rattle.std.specs.Option.{ForSome, ForNone};
ghost use Rattle.cg_list_laws.specs.Below.{lists_below};
ghost use Rattle.cg_layout.specs.Layout as layouts;
ghost use Rattle.cg_layout.specs.Svg.{words_text};
ghost use Rattle.cg_layout.specs.Tiles.{is_tiled};
ghost use Rattle.cg_show.specs.Panels as spec;

use crate::marked::{Scene, push_cells, push_links, push_starts, push_stays};
use cg_layout::{Layout, push_group, push_words};
use cg_occupancy::Marks;
use std::alloc::{AllocError, Global};

/// Returns where the panel of `slot` begins, from the left.
fn panel_left(layout: &Layout<'_>, slot: u32) -> u64
    ensures { result ≡ spec.panel_left (layouts.frame_of layout.now) slot }
{
    let width = u64::from(layout.panel_width());
    let column = u64::from(slot % 3);
    let left = (width + 24) * column;
    30 + left
}

/// Returns where the panel of `slot` begins, from the top.
fn panel_top(layout: &Layout<'_>, slot: u32) -> u64
    ensures { result ≡ spec.panel_top (layouts.frame_of layout.now) slot }
{
    let height = u64::from(layout.panel_height());
    let row = u64::from(slot / 3);
    let top = (height + 40) * row;
    70 + top
}

/// Adds the title of the panel of `slot` at `x` to `text`.
fn push_slot(alloc: Global, text: &mut Vec<u8>, x: u64, slot: u32) -> Result<(), AllocError>
    ensures { OnOk result (text.new.items ≡ text.old.items ++ words_text (codes "h") x 6 (spec.slot_words slot)) }
{
    let words = format!(in alloc; "slot {slot}")?;
    push_words(alloc, text, "h", x, 6, words.as_str())?;
    Ok(())
}

/// Adds the grid in `slot` to `text`.
fn push_grid(
    alloc: Global,
    text: &mut Vec<u8>,
    scene: Scene<'_, '_>,
    slot: u32,
) -> Result<(), AllocError>
    requires layout { scene.layout.now ≡ scene.marks.now.arch }
    requires slot { slot < scene.marks.now.mapping.ii }
    ensures { OnOk result (text.new.items ≡ text.old.items ++ spec.grid_panel scene.entry.marks.now slot) }
{
    let left = panel_left(scene.layout, slot);
    let top = panel_top(scene.layout, slot);
    push_group(alloc, text, left, top)?;
    push_slot(alloc, text, 34, slot)?;
    text.extend_from_slice(b"<use xlink:href='#tiles'/>")?;
    push_links(alloc, text, scene, slot)?;
    text.extend_from_slice(b"<use xlink:href='#boxes'/>")?;
    push_starts(alloc, text, scene, slot)?;
    push_stays(alloc, text, scene, slot)?;
    text.extend_from_slice(b"</g>\n")?;
    Ok(())
}

/// Adds the column of `slot` to `text`.
fn push_column(
    alloc: Global,
    text: &mut Vec<u8>,
    marks: &Marks<'_>,
    slot: u32,
) -> Result<(), AllocError>
    requires { slot < marks.now.mapping.ii }
    ensures { OnOk result (text.new.items ≡ text.old.items ++ spec.column_panel marks.now slot) }
{
    let left = 260 + 104 * u64::from(slot);
    push_group(alloc, text, left, 70)?;
    push_slot(alloc, text, 0, slot)?;
    text.extend_from_slice(b"<use xlink:href='#tiles'/>")?;
    push_cells(alloc, text, marks, slot)?;
    text.extend_from_slice(b"</g>\n")?;
    Ok(())
}

/// Adds the panel of `slot` to `text`, where `layout` has the places of tiles if all names have a tile.
fn push_panel(
    alloc: Global,
    text: &mut Vec<u8>,
    marks: &Marks<'_>,
    layout: Option<&Layout<'_>>,
    slot: u32,
) -> Result<(), AllocError>
    requires tiles { ForSome layout (λ l. (is_tiled marks.now.arch ≡ true) × (l.now ≡ marks.now.arch)) }
    requires column { ForNone layout (is_tiled marks.now.arch ≡ false) }
    requires slot { slot < marks.now.mapping.ii }
    ensures { OnOk result (text.new.items ≡ text.old.items ++ spec.panel_text marks.now slot) }
{
    match layout {
        Some(layout) => push_grid(alloc, text, Scene { marks, layout }, slot),
        None => push_column(alloc, text, marks, slot),
    }
}

/// The panels for which there is room.
#[derive(Drop)]
pub(crate) struct ShownPanels {
    /// Their text.
    pub text: Vec<u8>,
    /// Their number: the panels are those of the first slots.
    pub count: u32,
}

/// Returns the number of slots of the mapping of `marks`.
fn slots(marks: &Marks<'_>) -> u32
    ensures value { result ≡ marks.now.mapping.ii }
    ensures few { result ≤ 64 }
{
    let _contexts = marks.arch().contexts();
    marks.mapping().ii()
}

/// Returns the panels of the first slots that take at most `room` bytes.
pub(crate) fn panels(
    alloc: Global,
    marks: &Marks<'_>,
    layout: Option<&Layout<'_>>,
    room: usize,
) -> Result<ShownPanels, AllocError>
    requires tiles { ForSome layout (λ l. (is_tiled marks.now.arch ≡ true) × (l.now ≡ marks.now.arch)) }
    requires column { ForNone layout (is_tiled marks.now.arch ≡ false) }
    ensures count { IfOk result (λ p. p.count ≡ spec.shown marks.now room marks.now.mapping.ii) }
    ensures few { IfOk result (λ p. p.count ≤ 64) }
    ensures text { IfOk result (λ p. p.text.items ≡ lists_below (spec.panel_text marks.now) p.count) }
{
    let mut text = Vec::new(alloc);
    let ii = slots(marks);
    for slot in 0..ii {
        let before = text.len();
        push_panel(alloc, &mut text, marks, layout, slot)?;
        if text.len() > room {
            text.truncate(before);
            return Ok(ShownPanels { text, count: slot });
        }
    }
    Ok(ShownPanels { text, count: ii })
}

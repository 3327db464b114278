//! The marks of a picture.
ghost use Rattle.std.specs.Prelude.{◌≡◌, ◌++◌, ◌<◌, ◌≤◌, OnOk, length, Some, option_map};
ghost use Rattle.cg_model.specs.Array.{resource as resource_at};
ghost use Rattle.cg_list_laws.specs.Below.{lists_below};
ghost use Rattle.cg_occupancy.specs.Marks.{position_of, start_at, stay_at};
ghost use Rattle.cg_show.specs.Marked as spec;

use crate::words::{
    colour, kind_of, link_title, node_name, op_text, push_name, push_name_with, round_of,
    start_title, stay_title,
};
use cg_layout::{Area, Layout, Spot, push_mark, push_path, push_rect, push_ring, push_words};
use cg_model::Kind;
use cg_occupancy::{Marks, Stay};
use std::alloc::{AllocError, Global};

/// A legal mapping with the places of its array in a panel.
#[derive(Clone, Copy)]
pub(crate) struct Scene<'s, 'a> {
    /// The mapping.
    pub marks: &'s Marks<'a>,
    /// The places.
    pub layout: &'s Layout<'a>,
}

/// Adds the mark of `node` in the box of `unit`, which begins at `spot`, to `text`.
fn push_start_at(
    alloc: Global,
    text: &mut Vec<u8>,
    marks: &Marks<'_>,
    unit: u32,
    spot: Spot,
    node: u32,
) -> Result<(), AllocError>
    ensures { OnOk result (text.new.items ≡ text.old.items ++ spec.start_mark marks.now unit spot node) }
{
    let x = u64::from(spot.x);
    let y = u64::from(spot.y);
    let title = start_title(alloc, marks, unit, node)?;
    push_mark(alloc, text, colour(node), title.as_str())?;
    let area = Area {
        x,
        y,
        width: 84,
        height: 36,
    };
    push_rect(alloc, text, "b", area)?;
    push_name(
        alloc,
        text,
        "n",
        (x + 42, y + 16),
        12,
        node_name(marks, node),
    )?;
    let op = op_text(alloc, marks, node)?;
    push_words(alloc, text, "o", x + 42, y + 29, op.as_str())?;
    text.extend_from_slice(b"</g>\n")?;
    Ok(())
}

/// Adds to `text` the mark of the node that `unit` begins in `slot`, if there is one.
fn push_start(
    alloc: Global,
    text: &mut Vec<u8>,
    scene: Scene<'_, '_>,
    unit: u32,
    slot: u32,
) -> Result<(), AllocError>
    requires layout { scene.layout.now ≡ scene.marks.now.arch }
    requires unit { unit < length scene.marks.now.arch.units }
    requires slot { slot < scene.marks.now.mapping.ii }
    ensures { OnOk result (text.new.items ≡ text.old.items ++ spec.start_in scene.entry.marks.now slot unit) }
{
    match scene.marks.start(unit, slot) {
        Some(node) => {
            let spot = scene.layout.unit_box(unit);
            push_start_at(alloc, text, scene.marks, unit, spot, node)
        }
        None => Ok(()),
    }
}

/// Adds a mark for each unit that begins a node in `slot` to `text`.
pub(crate) fn push_starts(
    alloc: Global,
    text: &mut Vec<u8>,
    scene: Scene<'_, '_>,
    slot: u32,
) -> Result<(), AllocError>
    requires layout { scene.layout.now ≡ scene.marks.now.arch }
    requires slot { slot < scene.marks.now.mapping.ii }
    ensures { OnOk result (text.new.items ≡ text.old.items ++ spec.starts_text scene.entry.marks.now slot) }
{
    for unit in 0..scene.marks.arch().units().len() {
        push_start(alloc, text, scene, unit as u32, slot)?;
    }
    Ok(())
}

/// Adds the mark of `stay` on its chip, which begins at `spot`, to `text`.
fn push_stay_at(
    alloc: Global,
    text: &mut Vec<u8>,
    marks: &Marks<'_>,
    spot: Spot,
    stay: Stay,
) -> Result<(), AllocError>
    ensures { OnOk result (text.new.items ≡ text.old.items ++ spec.stay_mark marks.now spot (position_of stay)) }
{
    let x = u64::from(spot.x);
    let y = u64::from(spot.y);
    let title = stay_title(alloc, marks, stay)?;
    push_mark(alloc, text, colour(stay.source), title.as_str())?;
    let area = Area {
        x,
        y,
        width: 33,
        height: 12,
    };
    push_rect(alloc, text, "b", area)?;
    let name = node_name(marks, stay.source);
    push_name(alloc, text, "r", (x + 16, y + 9), 7, name)?;
    text.extend_from_slice(b"</g>\n")?;
    Ok(())
}

/// Adds to `text` the mark of the value that `resource` carries in `slot`, if there is one.
fn push_stay(
    alloc: Global,
    text: &mut Vec<u8>,
    scene: Scene<'_, '_>,
    resource: u32,
    slot: u32,
) -> Result<(), AllocError>
    requires layout { scene.layout.now ≡ scene.marks.now.arch }
    requires resource { resource < length scene.marks.now.arch.resources }
    requires slot { slot < scene.marks.now.mapping.ii }
    ensures { OnOk result (text.new.items ≡ text.old.items ++ spec.stay_in scene.entry.marks.now slot resource) }
{
    match scene.marks.stay(resource, slot) {
        Some(stay) => {
            let spot = scene.layout.seat(resource);
            push_stay_at(alloc, text, scene.marks, spot, stay)
        }
        None => Ok(()),
    }
}

/// Adds a mark for each resource that carries a value in `slot` to `text`.
pub(crate) fn push_stays(
    alloc: Global,
    text: &mut Vec<u8>,
    scene: Scene<'_, '_>,
    slot: u32,
) -> Result<(), AllocError>
    requires layout { scene.layout.now ≡ scene.marks.now.arch }
    requires slot { slot < scene.marks.now.mapping.ii }
    ensures { OnOk result (text.new.items ≡ text.old.items ++ spec.stays_text scene.entry.marks.now slot) }
{
    for resource in 0..scene.marks.arch().resources().len() {
        push_stay(alloc, text, scene, resource as u32, slot)?;
    }
    Ok(())
}

/// Returns the class of a line into a resource of the kind `kind`.
fn line_class(kind: Kind) -> &'static str
    ensures { result.now ≡ spec.line_class kind }
{
    match kind {
        Kind::Register => "l d",
        Kind::Wire | Kind::Port | Kind::Out => "l",
    }
}

/// Adds a ring at the right of the chip that begins at `spot` to `text`, where a line goes from there into a resource
/// of the kind `kind` that takes a cycle.
fn push_ring_by(alloc: Global, text: &mut Vec<u8>, kind: Kind, spot: Spot) -> Result<(), AllocError>
    ensures { OnOk result (text.new.items ≡ text.old.items ++ spec.ring_by kind spot) }
{
    match kind {
        Kind::Register => push_ring(alloc, text, u64::from(spot.x) + 33, u64::from(spot.y) + 6),
        Kind::Wire | Kind::Port | Kind::Out => Ok(()),
    }
}

/// Adds the line of `stay` from the resource `from` to `text`.
fn push_link_from(
    alloc: Global,
    text: &mut Vec<u8>,
    scene: Scene<'_, '_>,
    stay: Stay,
    from: u32,
) -> Result<(), AllocError>
    requires { scene.layout.now ≡ scene.marks.now.arch }
    ensures { OnOk result (text.new.items ≡ text.old.items ++ spec.link_from scene.entry.marks.now (position_of stay) (Some from)) }
{
    let title = link_title(alloc, scene.marks, stay, from)?;
    push_mark(alloc, text, colour(stay.source), title.as_str())?;
    let kind = kind_of(scene.marks, stay.resource);
    let way = scene.layout.way(alloc, stay.source, from, stay.resource)?;
    push_path(alloc, text, line_class(kind), way.as_str())?;
    push_ring_by(alloc, text, kind, scene.layout.seat(from))?;
    text.extend_from_slice(b"</g>\n")?;
    Ok(())
}

/// Adds to `text` the line of `stay`, if it comes from a resource.
fn push_link_of(
    alloc: Global,
    text: &mut Vec<u8>,
    scene: Scene<'_, '_>,
    stay: Stay,
) -> Result<(), AllocError>
    requires { scene.layout.now ≡ scene.marks.now.arch }
    ensures { OnOk result (text.new.items ≡ text.old.items ++ spec.link_from scene.entry.marks.now (position_of stay) stay.from) }
{
    match stay.from {
        Some(from) => push_link_from(alloc, text, scene, stay, from),
        None => Ok(()),
    }
}

/// Adds to `text` the line of the value that comes to `resource` along a link in `slot`, if there is one.
fn push_link(
    alloc: Global,
    text: &mut Vec<u8>,
    scene: Scene<'_, '_>,
    resource: u32,
    slot: u32,
) -> Result<(), AllocError>
    requires layout { scene.layout.now ≡ scene.marks.now.arch }
    requires resource { resource < length scene.marks.now.arch.resources }
    requires slot { slot < scene.marks.now.mapping.ii }
    ensures { OnOk result (text.new.items ≡ text.old.items ++ spec.link_in scene.entry.marks.now slot resource) }
{
    match scene.marks.stay(resource, slot) {
        Some(stay) => push_link_of(alloc, text, scene, stay),
        None => Ok(()),
    }
}

/// Adds a line for each link that brings a value in `slot` to `text`.
pub(crate) fn push_links(
    alloc: Global,
    text: &mut Vec<u8>,
    scene: Scene<'_, '_>,
    slot: u32,
) -> Result<(), AllocError>
    requires layout { scene.layout.now ≡ scene.marks.now.arch }
    requires slot { slot < scene.marks.now.mapping.ii }
    ensures { OnOk result (text.new.items ≡ text.old.items ++ spec.links_text scene.entry.marks.now slot) }
{
    for resource in 0..scene.marks.arch().resources().len() {
        push_link(alloc, text, scene, resource as u32, slot)?;
    }
    Ok(())
}

/// Adds the cell of `stay` in the row of `resource` to `text`.
fn push_cell_at(
    alloc: Global,
    text: &mut Vec<u8>,
    marks: &Marks<'_>,
    resource: u32,
    stay: Stay,
) -> Result<(), AllocError>
    ensures { OnOk result (text.new.items ≡ text.old.items ++ spec.cell_by marks.now resource (Some (position_of stay))) }
{
    let top = 18 * u64::from(resource);
    let title = stay_title(alloc, marks, stay)?;
    push_mark(alloc, text, colour(stay.source), title.as_str())?;
    let area = Area {
        x: 0,
        y: 14 + top,
        width: 100,
        height: 16,
    };
    push_rect(alloc, text, "b", area)?;
    let round = round_of(marks, stay.time);
    let rest = format!(in alloc; " @{round}")?;
    let name = node_name(marks, stay.source);
    push_name_with(alloc, text, "o", (50, 26 + top), 10, name, rest.as_str())?;
    text.extend_from_slice(b"</g>\n")?;
    Ok(())
}

/// Adds to `text` the cell of the value that `resource` carries in `slot`, if there is one.
fn push_cell(
    alloc: Global,
    text: &mut Vec<u8>,
    marks: &Marks<'_>,
    resource: u32,
    slot: u32,
) -> Result<(), AllocError>
    requires resource { resource < length marks.now.arch.resources }
    requires slot { slot < marks.now.mapping.ii }
    ensures { OnOk result (text.new.items ≡ text.old.items ++ spec.cell_in marks.now slot resource) }
{
    match marks.stay(resource, slot) {
        Some(stay) => push_cell_at(alloc, text, marks, resource, stay),
        None => Ok(()),
    }
}

/// Adds a cell for each resource that carries a value in `slot` to `text`.
pub(crate) fn push_cells(
    alloc: Global,
    text: &mut Vec<u8>,
    marks: &Marks<'_>,
    slot: u32,
) -> Result<(), AllocError>
    requires { slot < marks.now.mapping.ii }
    ensures { OnOk result (text.new.items ≡ text.old.items ++ spec.cells_text marks.now slot) }
{
    for resource in 0..marks.arch().resources().len() {
        push_cell(alloc, text, marks, resource as u32, slot)?;
    }
    Ok(())
}

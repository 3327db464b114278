//! The places of the resources and units of an array.
ghost use Rattle.std.specs.Prelude.{◌≡◌, ◌+◌, ◌<◌, ◌≤◌, ◌^◌, IfOk, length};
ghost use Rattle.cg_layout.specs.Tiles as tiles;
ghost use Rattle.cg_layout.specs.Layout as spec;
ghost use Rattle.cg_layout.specs.Places.{IsNear, IsGrid, AreSeats, AreBoxes, spot};

use crate::spot::{Frame, Spot};
use crate::tiled::Tiled;
use cg_model::Kind;
use std::alloc::{AllocError, Global};

/// Returns the number of rows of `count` chips.
fn chip_rows(count: u16) -> u32
    ensures value { result ≡ spec.chip_rows count }
    ensures small { result ≤ 16384 }
{
    (u32::from(count) + 3) / 4
}

/// Returns where the units of a tile begin.
fn units_top(frame: Frame) -> u32
    ensures value { result ≡ spec.units_top frame }
    ensures small { result ≤ 245778 }
{
    18 + 15 * chip_rows(frame.wires)
}

/// Returns where the registers of a tile begin.
fn registers_top(frame: Frame) -> u32
    ensures value { result ≡ spec.registers_top frame }
    ensures small { result ≤ 3129318 }
{
    units_top(frame) + 44 * u32::from(frame.units)
}

/// Returns the height of a tile.
pub(crate) fn tile_height(frame: Frame) -> u32
    ensures value { result ≡ spec.tile_height frame }
    ensures small { result ≤ 3400000 }
{
    registers_top(frame) + 15 * chip_rows(frame.registers) + 5
}

/// Returns the width of a panel.
pub(crate) fn panel_width(frame: Frame) -> u32
    ensures { result ≡ spec.panel_width frame }
{
    200 * u32::from(frame.columns) + 38
}

/// Returns the height of a panel.
pub(crate) fn panel_height(frame: Frame) -> u32
    requires { IsGrid frame }
    ensures { result ≡ spec.panel_height frame }
{
    (tile_height(frame) + 30) * u32::from(frame.rows) + 38
}

/// Returns where `tile` begins in a panel.
pub(crate) fn corner(frame: Frame, tile: u32) -> Spot
    requires { tile < 1024 }
    ensures value { result ≡ spec.corner frame tile }
    ensures near { (result.x ≤ 6234) × (result.y ≤ 106000000) }
{
    Spot {
        x: 34 + 200 * (tile % 32),
        y: 34 + (tile_height(frame) + 30) * (tile / 32),
    }
}

/// Returns the place `x` to the right of `spot` and `y` below it.
pub(crate) fn beyond(spot: Spot, x: u32, y: u32) -> Spot
    requires x { spot.x + x < 2 ^ 32 }
    requires y { spot.y + y < 2 ^ 32 }
    ensures { result ≡ spec.beyond spot x y }
{
    Spot {
        x: spot.x + x,
        y: spot.y + y,
    }
}

/// Returns the place of chip number `rank` in rows that begin at `top`, in a tile that begins at `corner`.
fn in_rows(corner: Spot, top: u32, rank: u32) -> Spot
    requires corner { (corner.x ≤ 6234) × (corner.y ≤ 106000000) }
    requires top { top ≤ 4000000 }
    requires rank { rank ≤ 4096 }
    ensures value { result ≡ spec.in_rows corner top rank }
    ensures near { IsNear result }
{
    beyond(corner, 8 + 39 * (rank % 4), top + 15 * (rank / 4))
}

/// Returns where `unit` begins in its tile.
fn unit_top(tiled: &Tiled<'_>, frame: Frame, unit: u32) -> u32
    requires { unit < 1024 }
    ensures value { result ≡ spec.unit_top tiled.now frame unit }
    ensures small { result ≤ 300000 }
{
    units_top(frame) + 44 * tiled.unit_rank(unit)
}

/// Returns the place of the chip of `resource`, which is of `kind`.
fn seat_by(tiled: &Tiled<'_>, frame: Frame, resource: u32, kind: Kind) -> Spot
    requires { resource < 4096 }
    ensures value { result ≡ spec.seat_by tiled.now frame resource kind }
    ensures near { IsNear result }
{
    let corner = corner(frame, tiled.tile(resource));
    match kind {
        Kind::Wire => in_rows(corner, 16, tiled.rank(resource)),
        Kind::Register => in_rows(corner, registers_top(frame), tiled.rank(resource)),
        Kind::Port => {
            let top = unit_top(tiled, frame, tiled.holder(resource));
            beyond(corner, 5, top + 12 * tiled.port_number(resource))
        }
        Kind::Out => {
            let top = unit_top(tiled, frame, tiled.holder(resource));
            beyond(corner, 132, top + 12)
        }
    }
}

/// Returns the place of the chip of `resource`.
#[tactic(auto, unfolding(crate::specs::Layout::seat))]
fn seat(tiled: &Tiled<'_>, frame: Frame, resource: u32) -> Spot
    ensures value { result ≡ spec.seat tiled.now frame resource }
    ensures near { IsNear result }
{
    if resource < tiled.resource_count() {
        seat_by(tiled, frame, resource, tiled.kind(resource))
    } else {
        Spot { x: 0, y: 0 }
    }
}

/// Returns the places of the chips of all resources, by number.
pub(crate) fn seats(alloc: Global, tiled: &Tiled<'_>, frame: Frame) -> Result<Vec<Spot>, AllocError>
    ensures { IfOk result (λ spots. AreSeats tiled.now frame spots.items) }
{
    let mut spots = Vec::new(alloc);
    for resource in 0..tiled.resource_count() {
        spots.push(seat(tiled, frame, resource))?;
    }
    Ok(spots)
}

/// Returns the place of the box of `unit`.
fn unit_box(tiled: &Tiled<'_>, frame: Frame, unit: u32) -> Spot
    ensures { result ≡ spec.box tiled.now frame unit }
{
    if unit < tiled.unit_count() {
        let corner = corner(frame, tiled.unit_tile(unit));
        beyond(corner, 43, unit_top(tiled, frame, unit))
    } else {
        Spot { x: 0, y: 0 }
    }
}

/// Returns the places of the boxes of all units, by number.
pub(crate) fn boxes(alloc: Global, tiled: &Tiled<'_>, frame: Frame) -> Result<Vec<Spot>, AllocError>
    ensures { IfOk result (λ spots. AreBoxes tiled.now frame spots.items) }
{
    let mut spots = Vec::new(alloc);
    for unit in 0..tiled.unit_count() {
        spots.push(unit_box(tiled, frame, unit))?;
    }
    Ok(spots)
}

/// Returns place `number` of `spots`, and the corner of the panel past the last one.
pub(crate) fn spot_at(spots: &[Spot], number: u32) -> Spot
    ensures { result ≡ spot spots.now number }
{
    if number as usize >= spots.len() {
        return Spot { x: 0, y: 0 };
    }
    spots[number as usize]
}

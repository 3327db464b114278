//! The places of the resources and units of an array of tiles in a panel.

use crate::seats::{boxes, corner, panel_height, panel_width, seats, spot_at, tile_height};
use crate::spot::{Frame, Spot};
use crate::tiled::Tiled;
use crate::ways::{Chip, lane_of, way};
use cg_arch::Arch;
use std::alloc::{AllocError, Global};
use std::marker::Model;

/// An array of tiles, with the places of its resources and units. Contracts see it as the array.
#[derive(Drop)]
pub struct Layout<'a> {
    tiled: Tiled<'a>,
    frame: Frame,
    seats: Vec<Spot>,
    boxes: Vec<Spot>,
}

impl<'a> Model for Layout<'a> {
    ghost use Rattle.cg_model.specs.Array as arrays;
    ghost use Rattle.cg_layout.specs.Places.{ArePlaces};

    ghost Value = { arrays.Arch };

    ghost view = { λ l. l.tiled };

    ghost invariant = { λ l. ArePlaces l.tiled l.frame l.seats.items l.boxes.items };
}

impl<'a> Layout<'a> {
    ghost use Rattle.std.specs.Prelude.{◌≡◌, ◌<◌, true, false, IfOk, MatchOption, string_bytes};
    ghost use Rattle.cg_layout.specs.Tiles as tiles;
    ghost use Rattle.cg_layout.specs.Tiles.{is_tiled};
    ghost use Rattle.cg_layout.specs.Layout as spec;
    ghost use Rattle.cg_layout.specs.Ways as ways;
    ghost use Rattle.cg_layout.specs.Places.{IsNear};

    /// Finds the places of the resources and units of `arch`; None where the name of a resource has no tile.
    pub fn of(alloc: Global, arch: &'a Arch) -> Result<Option<Layout<'a>>, AllocError>
        ensures { IfOk result (λ o. MatchOption o (is_tiled arch.now ≡ false) (λ l. (is_tiled arch.now ≡ true) × (l ≡ arch.now))) }
    {
        match Tiled::of(alloc, arch)? {
            None => Ok(None),
            Some(tiled) => Ok(Some(Layout::placed(alloc, tiled)?)),
        }
    }

    /// Returns the array.
    pub fn arch(&self) -> &'a Arch
        ensures { result.now ≡ self.now }
    {
        self.tiled.arch()
    }

    /// Returns the room that the tiles need.
    pub fn frame(&self) -> Frame
        ensures { result ≡ spec.frame_of self.now }
    {
        self.frame
    }

    /// Returns the tile of `resource`; 0 past the last one.
    pub fn tile(&self, resource: u32) -> u32
        ensures { result ≡ tiles.tile_of self.now resource }
    {
        self.tiled.tile(resource)
    }

    /// Returns where the tile of `resource` begins in a panel.
    pub fn corner(&self, resource: u32) -> Spot
        ensures { result ≡ spec.corner (spec.frame_of self.now) (tiles.tile_of self.now resource) }
    {
        corner(self.frame, self.tiled.tile(resource))
    }

    /// Returns where the chip of `resource` begins in a panel.
    pub fn seat(&self, resource: u32) -> Spot
        ensures { result ≡ spec.seat self.now (spec.frame_of self.now) resource }
    {
        spot_at(self.seats.as_slice(), resource)
    }

    /// Returns where the box of `unit` begins in a panel.
    pub fn unit_box(&self, unit: u32) -> Spot
        ensures { result ≡ spec.box self.now (spec.frame_of self.now) unit }
    {
        spot_at(self.boxes.as_slice(), unit)
    }

    /// Returns the height of a tile.
    pub fn tile_height(&self) -> u32
        ensures { result ≡ spec.tile_height (spec.frame_of self.now) }
    {
        tile_height(self.frame)
    }

    /// Returns the width of a panel.
    pub fn panel_width(&self) -> u32
        ensures { result ≡ spec.panel_width (spec.frame_of self.now) }
    {
        panel_width(self.frame)
    }

    /// Returns the height of a panel.
    pub fn panel_height(&self) -> u32
        ensures { result ≡ spec.panel_height (spec.frame_of self.now) }
    {
        panel_height(self.frame)
    }

    /// Returns the way of the line of `node`'s value from the chip of `from` to that of `to`.
    pub fn way(&self, alloc: Global, node: u32, from: u32, to: u32) -> Result<String, AllocError>
        ensures { IfOk result (λ text. string_bytes text ≡ ways.way self.now (spec.frame_of self.now) node from to) }
    {
        let first = self.chip(from);
        let last = self.chip(to);
        way(alloc, self.frame, from == to, lane_of(node), first, last)
    }

    /// Finds the places of the resources and units of `tiled`.
    fn placed(alloc: Global, tiled: Tiled<'a>) -> Result<Layout<'a>, AllocError>
        ensures { IfOk result (λ l. l ≡ tiled.entry) }
    {
        let frame = tiled.frame();
        let seats = seats(alloc, &tiled, frame)?;
        let boxes = boxes(alloc, &tiled, frame)?;
        Ok(Layout {
            tiled,
            frame,
            seats,
            boxes,
        })
    }

    /// Returns the chip of `resource`.
    fn chip(&self, resource: u32) -> Chip
        ensures value { result ≡ ways.chip self.now (spec.frame_of self.now) resource }
        ensures tile { result.tile < 1024 }
        ensures near { IsNear result.seat }
    {
        Chip {
            tile: self.tiled.tile(resource),
            kind: self.tiled.kind(resource),
            seat: self.seat(resource),
        }
    }
}

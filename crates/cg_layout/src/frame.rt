//! The room that the tiles of an array need.

use crate::spot::Frame;
use crate::tiled::{Tiled, same_kind};
use cg_model::Kind;

impl<'a> Tiled<'a> {
    ghost use Rattle.std.specs.Prelude.{◌≡◌, ◌+◌, ◌<◌, ◌≤◌, if◌then◌else◌, length};
    ghost use Rattle.cg_model.specs.Array.{resource as resource_of};
    ghost use Rattle.cg_occupancy.specs.Counts as counts;
    ghost use Rattle.cg_list_laws.specs.Below.{greatest_below};
    ghost use Rattle.cg_layout.specs.Tiles as tiles;
    ghost use Rattle.cg_layout.specs.Layout as spec;
    ghost use Rattle.cg_layout.specs.Places.{IsGrid};

    /// Returns the number of rows of tiles.
    fn rows(&self) -> u32
        ensures value { result ≡ greatest_below (λ r. tiles.row_of (tiles.tile_of self.now r) + 1) (length self.now.resources) }
        ensures few { result ≤ 32 }
    {
        let mut most = 0;
        for resource in 0..self.resource_count() {
            most = most.max(self.tile(resource) / 32 + 1);
        }
        most
    }

    /// Returns the number of columns of tiles.
    fn columns(&self) -> u32
        ensures value { result ≡ greatest_below (λ r. tiles.column_of (tiles.tile_of self.now r) + 1) (length self.now.resources) }
        ensures few { result ≤ 32 }
    {
        let mut most = 0;
        for resource in 0..self.resource_count() {
            most = most.max(self.tile(resource) % 32 + 1);
        }
        most
    }

    /// Returns the number of resources of `kind` in the tile of `resource` up to and including it, where it is of that
    /// kind, and else 0.
    fn number_in_kind(&self, resource: u32, kind: Kind) -> u32
        requires { resource < 4096 }
        ensures value { result ≡ (if counts.same_kind (resource_of self.now resource).kind kind then spec.rank self.now resource + 1 else 0) }
        ensures few { result ≤ 4096 }
    {
        if same_kind(self.kind(resource), kind) {
            self.rank(resource) + 1
        } else {
            0
        }
    }

    /// Returns the greatest number of resources of `kind` in a tile.
    fn most_of(&self, kind: Kind) -> u32
        ensures value { result ≡ spec.most_of self.now kind }
        ensures few { result ≤ 4096 }
    {
        let mut most = 0;
        for resource in 0..self.resource_count() {
            most = most.max(self.number_in_kind(resource, kind));
        }
        most
    }

    /// Returns the greatest number of units in a tile.
    fn most_units(&self) -> u32
        ensures value { result ≡ greatest_below (λ x. spec.unit_rank self.now x + 1) (length self.now.units) }
        ensures few { result ≤ 1024 }
    {
        let mut most = 0;
        for unit in 0..self.unit_count() {
            most = most.max(self.unit_rank(unit) + 1);
        }
        most
    }

    /// Returns the room that the tiles need.
    #[tactic(auto, unfolding(crate::specs::Layout::frame_of))]
    pub(crate) fn frame(&self) -> Frame
        ensures value { result ≡ spec.frame_of self.now }
        ensures grid { IsGrid result }
    {
        Frame {
            rows: self.rows() as u16,
            columns: self.columns() as u16,
            wires: self.most_of(Kind::Wire) as u16,
            units: self.most_units() as u16,
            registers: self.most_of(Kind::Register) as u16,
        }
    }
}

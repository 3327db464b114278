//! Arrays with the tiles of their resources.
ghost use Rattle.std.specs.Prelude.{◌≡◌, ◌≤◌, eqb, length, unwrap_or};
ghost use Rattle.std.specs.List.{list_any};
ghost use Rattle.cg_model.specs.First.{first_from};
ghost use Rattle.cg_occupancy.specs.Counts as counts;
ghost use Rattle.cg_layout.specs.Layout as spec;

use crate::tiles::{are_all, numbers, tiles_in};
use cg_arch::Arch;
use cg_model::{Kind, Unit};
use std::alloc::{AllocError, Global};
use std::marker::Model;

/// An array with the tile of each of its resources. Contracts see it as the array.
#[derive(Drop)]
pub(crate) struct Tiled<'a> {
    arch: &'a Arch,
    tiles: Vec<u32>,
}

impl<'a> Model for Tiled<'a> {
    ghost use Rattle.cg_model.specs.Array as arrays;
    ghost use Rattle.cg_layout.specs.Places.{AreTiles};

    ghost Value = { arrays.Arch };

    ghost view = { λ t. t.arch.now };

    ghost invariant = { λ t. AreTiles t.arch.now t.tiles.items };
}

/// Checks whether both kinds are equal.
pub(crate) fn same_kind(first: Kind, second: Kind) -> bool
    ensures { result ≡ counts.same_kind first second }
{
    match (first, second) {
        (Kind::Wire, Kind::Wire) => true,
        (Kind::Register, Kind::Register) => true,
        (Kind::Port, Kind::Port) => true,
        (Kind::Out, Kind::Out) => true,
        _ => false,
    }
}

/// Returns the index of `resource` in `ports`, and 0 where it isn't one of them.
fn number_of(ports: &[u32], resource: u32) -> u32
    requires { length ports.now ≤ 3 }
    ensures value { result ≡ unwrap_or (first_from (λ p q. eqb q resource) 0 ports.now) 0 }
    ensures small { result ≤ 3 }
{
    for (number, port) in ports.iter().enumerate() {
        if *port == resource {
            return number as u32;
        }
    }
    0
}

/// Checks whether `resource` is one of `ports`.
fn is_port(ports: &[u32], resource: u32) -> bool
    ensures { result ≡ list_any (λ q. eqb q resource) ports.now }
{
    ports.iter().any(|port| *port == resource)
}

/// Checks whether `resource` is the out or a port of `unit`.
fn holds(unit: &Unit, resource: u32) -> bool
    ensures { result ≡ spec.holds resource unit.now }
{
    unit.out == resource || is_port(unit.ports.as_slice(), resource)
}

impl<'a> Tiled<'a> {
    ghost use Rattle.std.specs.Prelude.{◌≡◌, ◌<◌, ◌≤◌, true, false, length, IfOk, MatchOption};
    ghost use Rattle.cg_model.specs.Array.{resource as resource_of, unit as unit_of};
    ghost use Rattle.cg_layout.specs.Tiles as tiles;
    ghost use Rattle.cg_layout.specs.Layout as spec;

    /// Finds the tiles of `arch`; None where the name of a resource has no tile.
    pub(crate) fn of(alloc: Global, arch: &'a Arch) -> Result<Option<Tiled<'a>>, AllocError>
        ensures { IfOk result (λ o. MatchOption o (tiles.is_tiled arch.now ≡ false) (λ t. (tiles.is_tiled arch.now ≡ true) × (t ≡ arch.now))) }
    {
        let found = tiles_in(alloc, arch)?;
        if !are_all(found.as_slice()) {
            return Ok(None);
        }
        let tiles = numbers(alloc, found.as_slice())?;
        Ok(Some(Tiled { arch, tiles }))
    }

    /// Returns the array.
    pub(crate) fn arch(&self) -> &'a Arch
        ensures { result.now ≡ self.now }
    {
        self.arch
    }

    /// Returns the number of resources.
    pub(crate) fn resource_count(&self) -> u32
        ensures value { result ≡ length self.now.resources }
        ensures few { result ≤ 4096 }
    {
        self.arch().resources().len() as u32
    }

    /// Returns the number of units.
    pub(crate) fn unit_count(&self) -> u32
        ensures value { result ≡ length self.now.units }
        ensures few { result ≤ 1024 }
    {
        self.arch().units().len() as u32
    }

    /// Returns the tile of `resource`.
    pub(crate) fn tile(&self, resource: u32) -> u32
        ensures value { result ≡ tiles.tile_of self.now resource }
        ensures small { result < 1024 }
    {
        let tiles = self.tiles.as_slice();
        if resource as usize >= tiles.len() {
            return 0;
        }
        tiles[resource as usize]
    }

    /// Returns the kind of `resource`.
    pub(crate) fn kind(&self, resource: u32) -> Kind
        ensures { result ≡ (resource_of self.now resource).kind }
    {
        let resources = self.arch().resources();
        if resource as usize >= resources.len() {
            return Kind::Wire;
        }
        resources[resource as usize].kind
    }

    /// Returns the out of `unit`.
    fn out(&self, unit: u32) -> u32
        ensures { result ≡ (unit_of self.now unit).out }
    {
        let units = self.arch().units();
        if unit as usize >= units.len() {
            return 0;
        }
        units[unit as usize].out
    }

    /// Returns the tile of `unit`.
    pub(crate) fn unit_tile(&self, unit: u32) -> u32
        ensures value { result ≡ tiles.unit_tile self.now unit }
        ensures small { result < 1024 }
    {
        self.tile(self.out(unit))
    }

    /// Checks whether `other` is in the tile of `resource` and of its kind.
    fn is_beside(&self, resource: u32, other: u32) -> bool
        ensures { result ≡ spec.is_beside self.now resource other }
    {
        self.tile(other) == self.tile(resource) && same_kind(self.kind(other), self.kind(resource))
    }

    /// Returns the number of resources before `resource` in its tile and of its kind.
    pub(crate) fn rank(&self, resource: u32) -> u32
        ensures value { result ≡ spec.rank self.now resource }
        ensures few { result ≤ resource }
    {
        let mut count = 0;
        for other in 0..resource {
            if self.is_beside(resource, other) {
                count += 1;
            }
        }
        count
    }

    /// Returns the number of units before `unit` in its tile.
    pub(crate) fn unit_rank(&self, unit: u32) -> u32
        ensures value { result ≡ spec.unit_rank self.now unit }
        ensures few { result ≤ unit }
    {
        let mut count = 0;
        let tile = self.unit_tile(unit);
        for other in 0..unit {
            if self.unit_tile(other) == tile {
                count += 1;
            }
        }
        count
    }

    /// Returns the unit of which `resource` is the out or a port, and 0 where there is none.
    pub(crate) fn holder(&self, resource: u32) -> u32
        ensures value { result ≡ spec.holder self.now resource }
        ensures small { result < 1024 }
    {
        for (number, unit) in self.arch().units().iter().enumerate() {
            if holds(unit, resource) {
                return number as u32;
            }
        }
        0
    }

    /// Returns the index of `resource` among the ports of its unit, and 0 where it isn't a port.
    pub(crate) fn port_number(&self, resource: u32) -> u32
        ensures value { result ≡ spec.port_number resource (unit_of self.now (spec.holder self.now resource)) }
        ensures small { result ≤ 3 }
    {
        let units = self.arch().units();
        let unit = self.holder(resource);
        if unit as usize >= units.len() {
            return 0;
        }
        number_of(units[unit as usize].ports.as_slice(), resource)
    }
}

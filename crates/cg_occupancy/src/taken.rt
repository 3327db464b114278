//! The part of an array that a legal mapping uses.
ghost use Rattle.std.specs.Prelude.{◌≡◌};
ghost use Rattle.cg_occupancy.specs.Counts as counts;

use crate::marks::Marks;
use cg_model::Kind;

/// Checks whether both kinds are equal.
fn same_kind(first: Kind, second: Kind) -> bool
    ensures { result ≡ counts.same_kind first second }
{
    match (first, second) {
        (Kind::Wire, Kind::Wire) => true,
        (Kind::Register, Kind::Register) => true,
        (Kind::Port, Kind::Port) => true,
        (Kind::Out, Kind::Out) => true,
        _ => false,
    }
}

impl<'a> Marks<'a> {
    ghost use Rattle.std.specs.Prelude.{◌≡◌, ◌<◌, ◌≤◌, length};
    ghost use Rattle.cg_model.specs.Array.{resource as resource_of};

    /// Returns the number of slots in which `unit` begins a node.
    pub fn starts_of(&self, unit: u32) -> u32
        requires { unit < length self.now.arch.units }
        ensures value { result ≡ counts.starts_of self.now unit }
        ensures few { result ≤ self.now.mapping.ii }
    {
        let mut count = 0;
        for slot in 0..self.mapping().ii() {
            if self.start(unit, slot).is_some() {
                count += 1;
            }
        }
        count
    }

    /// Returns the number of units that begin a node.
    pub fn busy_units(&self) -> u32
        ensures { result ≡ counts.busy_units self.now }
    {
        let mut count = 0;
        for unit in 0..self.arch().units().len() {
            if 0 < self.starts_of(unit as u32) {
                count += 1;
            }
        }
        count
    }

    /// Returns the number of slots in which units begin a node.
    pub fn busy_slots(&self) -> u32
        ensures { result ≡ counts.busy_slots self.now }
    {
        let mut count = 0;
        for unit in 0..self.arch().units().len() {
            count += self.starts_of(unit as u32);
        }
        count
    }

    /// Returns the number of slots in which `resource` carries a value.
    fn stays_of(&self, resource: u32) -> u32
        requires { resource < length self.now.arch.resources }
        ensures value { result ≡ counts.stays_of self.now resource }
        ensures few { result ≤ self.now.mapping.ii }
    {
        let mut count = 0;
        for slot in 0..self.mapping().ii() {
            if self.stay(resource, slot).is_some() {
                count += 1;
            }
        }
        count
    }

    /// Checks whether `resource` is of `kind`.
    fn is_of(&self, resource: usize, kind: Kind) -> bool
        requires { resource < length self.now.arch.resources }
        ensures { result ≡ counts.same_kind (resource_of self.now.arch resource).kind kind }
    {
        same_kind(self.arch().resources()[resource].kind, kind)
    }

    /// Returns the number of resources of `kind`.
    pub fn resources_of(&self, kind: Kind) -> u32
        ensures { result ≡ counts.resources_of self.now kind }
    {
        let mut count = 0;
        for resource in 0..self.arch().resources().len() {
            if self.is_of(resource, kind) {
                count += 1;
            }
        }
        count
    }

    /// Returns the number of slots in which resources of `kind` carry a value.
    pub fn taken_slots(&self, kind: Kind) -> u32
        ensures { result ≡ counts.taken_slots self.now kind }
    {
        let mut count = 0;
        for resource in 0..self.arch().resources().len() {
            if self.is_of(resource, kind) {
                count += self.stays_of(resource as u32);
            }
        }
        count
    }
}

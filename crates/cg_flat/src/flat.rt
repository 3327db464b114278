//! Architectures with resources and units by number.

use cg_model::{Name, Resource, Unit};
use std::marker::Model;

/// An architecture, valid or not, which contracts see as the model's record.
#[derive(Drop)]
pub struct Flat {
    name: Name,
    contexts: u32,
    memory: u32,
    resources: Vec<Resource>,
    units: Vec<Unit>,
    hub: Vec<u32>,
}

impl Model for Flat {
    ghost use Rattle.cg_model.specs.Array as arrays;

    ghost Value = { arrays.Arch };

    ghost view = { λ f. record { name = f.name; contexts = f.contexts; memory = f.memory; resources = f.resources.items; units = f.units.items; hub = f.hub.items } };
}

impl Flat {
    ghost use Rattle.std.specs.Prelude.{◌≡◌};

    /// Returns an architecture of these parts by number.
    pub fn new(
        name: Name,
        contexts: u32,
        memory: u32,
        resources: Vec<Resource>,
        units: Vec<Unit>,
        hub: Vec<u32>,
    ) -> Flat
        ensures { result ≡ record { name = name; contexts = contexts; memory = memory; resources = resources.items; units = units.items; hub = hub.items } }
    {
        Flat {
            name,
            contexts,
            memory,
            resources,
            units,
            hub,
        }
    }

    /// Returns its name.
    pub fn name(&self) -> &Name
        ensures { result.now ≡ self.now.name }
    {
        &self.name
    }

    /// Returns the greatest number of slots of a configuration.
    pub fn contexts(&self) -> u32
        ensures { result ≡ self.now.contexts }
    {
        self.contexts
    }

    /// Returns the number of words of the scratchpad.
    pub fn memory(&self) -> u32
        ensures { result ≡ self.now.memory }
    {
        self.memory
    }

    /// Returns the resources by number.
    pub fn resources(&self) -> &[Resource]
        ensures { result.now ≡ self.now.resources }
    {
        &self.resources
    }

    /// Returns the units by number.
    pub fn units(&self) -> &[Unit]
        ensures { result.now ≡ self.now.units }
    {
        &self.units
    }

    /// Returns the numbers of the hub's registers; empty where there is no hub.
    pub fn hub(&self) -> &[u32]
        ensures { result.now ≡ self.now.hub }
    {
        &self.hub
    }
}

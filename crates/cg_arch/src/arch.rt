//! Valid architectures.
ghost use Rattle.std.specs.Prelude.{◌≡◌, IfOk};
ghost use Rattle.cg_flat.specs.Text.{text_of};

use cg_flat::Flat;
use cg_model::{Name, Resource, Unit, Words};
use std::alloc::{AllocError, Global};
use std::marker::Model;

/// A valid architecture, which contracts see as the model's record. It keeps the digest of its text, an order in which
/// its resources can be evaluated, and where the fields of a slot begin.
#[derive(Drop)]
pub struct Arch {
    flat: Flat,
    digest: [u8; 32],
    order: Words,
    select_starts: Words,
    unit_starts: Words,
}

impl Model for Arch {
    ghost use Rattle.cg_model.specs.Array as arrays;
    ghost use Rattle.cg_arch.specs.Kept.{IsKept};

    ghost Value = { arrays.Arch };

    ghost view = { λ a. a.flat };

    ghost invariant = { λ a. IsKept a.flat a.digest a.order a.select_starts a.unit_starts };
}

impl Arch {
    ghost use Rattle.std.specs.Prelude.{◌≡◌, ◌<◌, length};
    ghost use Rattle.cg_model.specs.Array as arrays;
    ghost use Rattle.cg_levelize.specs.Topological.{IsTopological};
    ghost use Rattle.cg_flat.specs.Slots as slots;
    ghost use Rattle.cg_arch.specs.Kept.{IsKept, digest_of};

    /// Returns an architecture with its derived data.
    pub(crate) fn new(
        flat: Flat,
        digest: [u8; 32],
        order: Words,
        select_starts: Words,
        unit_starts: Words,
    ) -> Arch
        requires { IsKept flat digest order select_starts unit_starts }
        ensures { result ≡ flat }
    {
        Arch {
            flat,
            digest,
            order,
            select_starts,
            unit_starts,
        }
    }

    /// Returns its name.
    pub fn name(&self) -> &Name
        ensures name { result.now ≡ self.now.name }
        ensures valid { arrays.IsArch self.now }
    {
        self.flat.name()
    }

    /// Returns the greatest number of slots of a configuration, 1 to 64.
    pub fn contexts(&self) -> u32
        ensures contexts { result ≡ self.now.contexts }
        ensures valid { arrays.IsArch self.now }
    {
        self.flat.contexts()
    }

    /// Returns the number of words of the scratchpad.
    pub fn memory(&self) -> u32
        ensures memory { result ≡ self.now.memory }
        ensures valid { arrays.IsArch self.now }
    {
        self.flat.memory()
    }

    /// Returns the resources by number.
    pub fn resources(&self) -> &[Resource]
        ensures resources { result.now ≡ self.now.resources }
        ensures valid { arrays.IsArch self.now }
    {
        self.flat.resources()
    }

    /// Returns the units by number.
    pub fn units(&self) -> &[Unit]
        ensures units { result.now ≡ self.now.units }
        ensures valid { arrays.IsArch self.now }
    {
        self.flat.units()
    }

    /// Returns the numbers of the hub's registers; empty where there is no hub.
    pub fn hub(&self) -> &[u32]
        ensures hub { result.now ≡ self.now.hub }
        ensures valid { arrays.IsArch self.now }
    {
        self.flat.hub()
    }

    /// Returns the SHA-256 of its text.
    pub fn digest(&self) -> [u8; 32]
        ensures { result ≡ digest_of self.now }
    {
        self.digest
    }

    /// Returns the numbers of all resources, each after those from which it takes its word in the same cycle.
    pub fn order(&self) -> &[u32]
        ensures { IsTopological self.now.resources result.now }
    {
        self.order.as_slice()
    }

    /// Returns the width of the select of `resource`, in bits; 0 where it has no drivers.
    pub fn select_bits(&self, resource: u32) -> u32
        requires { resource < length self.now.resources }
        ensures value { result ≡ slots.select_bits self.now resource }
        ensures least { slots.IsWidth (length (arrays.resource self.now resource).drivers) result }
    {
        let starts = self.select_starts.as_slice();
        let place = resource as usize;
        starts[place + 1] - starts[place]
    }

    /// Returns where the select of `resource` begins in a slot, in bits.
    pub fn select_at(&self, resource: u32) -> u32
        requires { resource < length self.now.resources }
        ensures { result ≡ slots.select_at self.now resource }
    {
        self.select_starts.as_slice()[resource as usize]
    }

    /// Returns where the fields of `unit` begin in a slot, in bits.
    pub fn unit_at(&self, unit: u32) -> u32
        requires { unit < length self.now.units }
        ensures { result ≡ slots.unit_at self.now unit }
    {
        self.unit_starts.as_slice()[unit as usize]
    }

    /// Returns the number of bits of a slot.
    pub fn slot_bits(&self) -> u32
        ensures { result ≡ slots.slot_bits self.now }
    {
        let units = self.units().len();
        self.unit_starts.as_slice()[units]
    }
}

/// Returns the text of `arch`, in lines that end with LF.
pub fn flat_text(alloc: Global, arch: &Arch) -> Result<Vec<u8>, AllocError>
    ensures { IfOk result (λ text. text.items ≡ text_of arch.now) }
{
    cg_flat::flat_text(alloc, &arch.flat)
}

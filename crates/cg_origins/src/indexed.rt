//! An architecture in which the unit of an out is found at once.
ghost use Rattle.std.specs.Prelude.{IfOk};
ghost use Rattle.cg_origins.specs.Indexed.{AreOwners};

use cg_arch::Arch;
use std::alloc::{AllocError, Global};
use std::marker::Model;

/// A valid architecture with the unit of each out, borrowed. Contracts see the architecture.
#[derive(Drop)]
pub(crate) struct IndexedArch<'a> {
    arch: &'a Arch,
    owners: Vec<u32>,
}

impl<'a> Model for IndexedArch<'a> {
    ghost use Rattle.cg_model.specs.Array as arrays;
    ghost use Rattle.cg_origins.specs.Indexed.{AreOwners};

    ghost Value = { arrays.Arch };

    ghost view = { λ a. a.arch.now };

    ghost invariant = { λ a. AreOwners a.arch.now a.owners.items };
}

impl<'a> IndexedArch<'a> {
    ghost use Rattle.std.specs.Prelude.{◌≡◌, ◌<◌, IfOk, length};
    ghost use Rattle.cg_model.specs.Array as arrays;
    ghost use Rattle.cg_model.specs.declared.array.Kind.TheVariants.{Out};

    /// Returns `arch` with the unit of each of its outs.
    pub(crate) fn new(alloc: Global, arch: &'a Arch) -> Result<IndexedArch<'a>, AllocError>
        ensures { IfOk result (λ a. a ≡ arch.now) }
    {
        let owners = owners_of(alloc, arch)?;
        Ok(IndexedArch { arch, owners })
    }

    /// Returns the architecture.
    pub(crate) fn arch(&self) -> &'a Arch
        ensures arch { result.now ≡ self.now }
        ensures valid { arrays.IsArch self.now }
    {
        let arch = self.arch;
        arch
    }

    /// Returns the unit whose out is `resource`.
    pub(crate) fn owner(&self, resource: u32) -> u32
        requires known { resource < length self.now.resources }
        requires out { (arrays.resource self.now resource).kind ≡ Out }
        ensures owner { result ≡ arrays.owner self.now resource }
        ensures known { result < length self.now.units }
    {
        self.owners[resource as usize]
    }
}

/// Returns, for each resource of `arch`, the unit whose out it is, and 0 for one that is no out.
fn owners_of(alloc: Global, arch: &Arch) -> Result<Vec<u32>, AllocError>
    ensures { IfOk result (λ owners. AreOwners arch.now owners.items) }
{
    let resources = arch.resources().len();
    let mut owners = vec![in alloc; 0_u32; resources]?;
    for (x, unit) in arch.units().iter().enumerate() {
        owners[unit.out as usize] = x as u32;
    }
    Ok(owners)
}

//! The registers that each resource drives.
ghost use Rattle.std.specs.Prelude.{◌≡◌, ℕ, ◌<◌, eqb, IfOk, All, length, filter};
ghost use Rattle.cg_model.specs.Array.{delay};
ghost use Rattle.cg_mrrg.specs.Users.{AreRegisters};

use crate::graph::delay_of;
use crate::users::users;
use cg_arch::Arch;
use cg_model::Items;
use std::alloc::{AllocError, Global};

/// Returns the registers that each resource drives, ascending.
pub(crate) fn registers(alloc: Global, arch: &Arch) -> Result<Vec<Items<u32>>, AllocError>
    ensures { IfOk result (λ t. AreRegisters arch.now (length arch.now.resources) t.items) }
{
    let users = users(alloc, arch)?;
    let mut lists = Vec::new(alloc);
    for resource in 0..users.len() {
        lists.push(registers_among(alloc, arch, users[resource].as_slice())?)?;
    }
    Ok(lists)
}

/// Returns the registers among `resources`, in their order.
fn registers_among(alloc: Global, arch: &Arch, resources: &[u32]) -> Result<Items<u32>, AllocError>
    requires known { All (λ r. r < length arch.now.resources) resources.now }
    ensures { IfOk result (λ t. t ≡ filter (λ r. eqb (delay arch.now r) 1) resources.now) }
{
    let mut registers = Vec::new(alloc);
    for resource in resources {
        if delay_of(arch, *resource) == 1 {
            registers.push(*resource)?;
        }
    }
    Ok(Items::new(registers))
}

//! The resources that each resource drives.
ghost use Rattle.std.specs.Prelude.{◌≡◌, ℕ, ◌<◌, ◌≤◌, ◌+◌, ◌∷◌, ◌++◌, [], IfOk, OnOk, length, replicate, slice_set};
ghost use Rattle.cg_model.specs.Array.{IsArch};
ghost use Rattle.cg_mrrg.specs.Users.{AreUsers, users_of};

use cg_arch::Arch;
use cg_model::Items;
use std::alloc::{AllocError, Global};

/// Returns the resources that each resource drives, ascending.
pub(crate) fn users(alloc: Global, arch: &Arch) -> Result<Vec<Items<u32>>, AllocError>
    ensures { IfOk result (λ t. AreUsers arch.now (length arch.now.resources) 0 t.items) }
{
    let count = arch.resources().len();
    let mut users = no_users(alloc, count)?;
    for resource in 0..count {
        add_user(arch, resource, &mut users)?;
    }
    Ok(users)
}

/// Returns `count` empty lists.
fn no_users(alloc: Global, count: usize) -> Result<Vec<Items<u32>>, AllocError>
    ensures { IfOk result (λ t. t.items ≡ replicate count []) }
{
    let mut users = Vec::new(alloc);
    for _ in 0..count {
        users.push(Items::new(Vec::new(alloc)))?;
    }
    Ok(users)
}

/// Adds `resource` to the lists of its drivers in `users`.
fn add_user(arch: &Arch, resource: usize, users: &mut [Items<u32>]) -> Result<(), AllocError>
    requires resource { resource < length arch.now.resources }
    requires users { AreUsers arch.now resource 0 users.old }
    ensures { OnOk result (AreUsers arch.now (resource + 1) 0 users.new) }
{
    let drivers = arch.resources()[resource].drivers.as_slice();
    for place in 0..drivers.len() {
        add(users, drivers[place] as usize, resource as u32)?;
    }
    Ok(())
}

/// Adds `user` to the list of `driver` in `users`.
fn add(users: &mut [Items<u32>], driver: usize, user: u32) -> Result<(), AllocError>
    requires { driver < length users.old }
    ensures { OnOk result (users.new ≡ slice_set users.old driver (users_of users.old driver ++ user ∷ [])) }
{
    users[driver].push(user)?;
    Ok(())
}

//! The order in which the wires get their words within a cycle, and the resources of a kind.
ghost use Rattle.std.specs.Prelude.{◌≤◌, length};
ghost use Rattle.cg_model.specs.Limits.{most_resources};

use crate::rows::Rows;
use cg_arch::{Kind, Resource};
use std::alloc::{AllocError, Global};

/// Returns the wires, each after the wires that drive it and otherwise as early as possible.
pub(crate) fn wires_of(
    alloc: Global,
    resources: &[Resource],
    users: &Rows,
) -> Result<Vec<u32>, AllocError>
    requires { length resources.now ≤ most_resources }
{
    let mut waits = waits_of(alloc, resources)?;
    let mut wires = free_wires(alloc, resources, &waits)?;
    order_wires(resources, users, &mut waits, &mut wires)?;
    Ok(wires)
}

/// Checks whether resource `number` is of `kind`.
#[inline]
pub(crate) fn is_of(resources: &[Resource], number: u32, kind: Kind) -> bool {
    match resources.get(number as usize) {
        Some(resource) => resource.kind == kind,
        None => false,
    }
}

/// Counts the wires that drive each resource.
fn waits_of(alloc: Global, resources: &[Resource]) -> Result<Vec<u32>, AllocError> {
    let mut waits = Vec::new(alloc);
    for resource in resources {
        waits.push(wires_among(resources, resource.drivers.as_slice()))?;
    }
    Ok(waits)
}

/// Counts the wires among the resources `numbers`.
fn wires_among(resources: &[Resource], numbers: &[u32]) -> u32 {
    let mut count = 0u32;
    for number in numbers {
        if is_of(resources, *number, Kind::Wire) {
            count = count.saturating_add(1);
        }
    }
    count
}

/// Returns the wires that no wire drives, ascending.
fn free_wires(alloc: Global, resources: &[Resource], waits: &[u32]) -> Result<Vec<u32>, AllocError>
    requires { length resources.now ≤ most_resources }
{
    let mut wires = Vec::new(alloc);
    for number in 0..resources.len() {
        if is_of(resources, number as u32, Kind::Wire) && waits.get(number) == Some(&0) {
            wires.push(number as u32)?;
        }
    }
    Ok(wires)
}

/// Adds each wire after the wires that drive it.
fn order_wires(
    resources: &[Resource],
    users: &Rows,
    waits: &mut [u32],
    wires: &mut Vec<u32>,
) -> Result<(), AllocError> {
    for place in 0..resources.len() {
        let Some(wire) = wires.get(place).copied() else {
            break;
        };
        pass(resources, users.row(wire), waits, wires)?;
    }
    Ok(())
}

/// Adds the users of a wire that are wires and waited for that wire alone.
fn pass(
    resources: &[Resource],
    users: &[u32],
    waits: &mut [u32],
    wires: &mut Vec<u32>,
) -> Result<(), AllocError> {
    for user in users {
        if is_of(resources, *user, Kind::Wire) && stop_waiting(waits, *user) {
            wires.push(*user)?;
        }
    }
    Ok(())
}

/// Notes that a wire for which `user` waited has its word, and returns whether `user` waits for no other wire.
fn stop_waiting(waits: &mut [u32], user: u32) -> bool {
    match waits.get_mut(user as usize) {
        Some(wait) => {
            let left = wait.saturating_sub(1);
            *wait = left;
            left == 0
        }
        None => false,
    }
}

/// Returns the resources of a kind, ascending.
pub(crate) fn all_of(
    alloc: Global,
    resources: &[Resource],
    kind: Kind,
) -> Result<Vec<u32>, AllocError>
    requires { length resources.now ≤ most_resources }
{
    let mut numbers = Vec::new(alloc);
    for number in 0..resources.len() {
        if is_of(resources, number as u32, kind) {
            numbers.push(number as u32)?;
        }
    }
    Ok(numbers)
}

//! The price of a resource without claims and without earlier excess.
use crate::flow::is_of;
use crate::rows::Rows;
use cg_arch::{Kind, Resource};
use std::alloc::{AllocError, Global};

/// The price of a register without claims and without earlier excess.
pub const REGISTER_PRICE: u32 = 4;

/// The first price of a wire whose users are all registers, at least one: each value that is kept passes through a wire
/// of this kind.
const GATE_PRICE: u32 = 8;

/// The first price of any other resource.
pub(crate) const OTHER_PRICE: u32 = 1;

/// Returns the first prices of the resources.
pub(crate) fn bases_of(
    alloc: Global,
    resources: &[Resource],
    users: &Rows,
) -> Result<Vec<u32>, AllocError> {
    let mut bases = Vec::new(alloc);
    for resource in resources {
        let number = bases.len().min(u32::MAX as usize) as u32;
        bases.push(base_of(resource.kind, resources, users.row(number)))?;
    }
    Ok(bases)
}

/// Returns the first price of a resource of `kind` with `users`.
fn base_of(kind: Kind, resources: &[Resource], users: &[u32]) -> u32 {
    if kind == Kind::Register {
        REGISTER_PRICE
    } else if kind == Kind::Wire && are_registers(resources, users) {
        GATE_PRICE
    } else {
        OTHER_PRICE
    }
}

/// Checks whether all of `numbers` are registers, and there is at least one.
fn are_registers(resources: &[Resource], numbers: &[u32]) -> bool {
    for number in numbers {
        if !is_of(resources, *number, Kind::Register) {
            return false;
        }
    }
    !numbers.is_empty()
}

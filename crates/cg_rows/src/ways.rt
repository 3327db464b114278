//! The registers on the ways of edges through three units.

use cg_arch::Arch;
use cg_bound_routes::find_ways;
use cg_model::Kernel;
use std::alloc::{AllocError, Global};

/// Checks whether the registers on the shortest ways are those of the drivers. Unit a counts, and units b and c select:
/// their first port is driven by a wire from a, the second by a register from a, and the third by the other's out
/// directly and by their own out through a register.
pub(crate) fn registers_on_ways(
    alloc: Global,
    arch: &Arch,
    kernel: &Kernel,
) -> Result<bool, AllocError> {
    let ways = find_ways(alloc, arch, kernel, 2)?;
    let by_wire = ways.hops(1, 0);
    let by_register = ways.hops(1, 1);
    let no_link = ways.hops(1, 2);
    let constant = ways.hops(2, 0);
    let to_itself = ways.hops(2, 2);
    let from_selected = ways.hops(3, 0);
    let to_the_other = ways.hops(3, 2);
    let past_the_last = ways.hops(4, 0);
    Ok(
        by_wire == Some(0)
            && by_register == Some(1)
            && no_link.is_none()
            && constant.is_none()
            && to_itself == Some(1)
            && from_selected.is_none()
            && to_the_other == Some(0)
            && past_the_last.is_none(),
    )
}

//! The units of nodes.
ghost use Rattle.std.specs.Prelude.{◌≡◌, slice_get};
ghost use Rattle.cg_place.specs.Placed.{offering};

use cg_arch::{Arch, Op};

/// Returns the lowest-numbered unit that offers the operation `op`.
pub(crate) fn host(arch: &Arch, op: Op) -> Option<u32>
    ensures { result ≡ slice_get (offering arch.now op) 0 }
{
    let units = arch.units();
    for x in 0..units.len() {
        if units[x].ops.has(op) {
            return Some(x as u32);
        }
    }
    None
}

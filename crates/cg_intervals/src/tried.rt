//! The intervals that a search tries.
ghost use Rattle.std.specs.Prelude.{◌≡◌, IfOk};
ghost use Rattle.cg_bound.specs.Bound.{IsOpen};
ghost use Rattle.cg_intervals.specs.Intervals as spec;
ghost use Rattle.cg_intervals.specs.Intervals.{IsFirst};

use cg_arch::Arch;
use cg_bound::bound;
use cg_model::Kernel;
use std::alloc::{AllocError, Global};

/// Returns the last interval that is tried; `asked` is the requested interval, if there is one.
pub fn last_tried(arch: &Arch, asked: Option<u32>) -> u32
    ensures { result ≡ spec.last_tried arch.now asked }
{
    match asked {
        Some(ii) => ii,
        None => arch.contexts(),
    }
}

/// Returns the first interval that is tried; `asked` is the requested interval, if there is one.
pub fn first_tried(
    alloc: Global,
    arch: &Arch,
    kernel: &Kernel,
    asked: Option<u32>,
) -> Result<u32, AllocError>
    requires { IsOpen arch.now kernel.now (spec.last_tried arch.now asked) }
    ensures { IfOk result (IsFirst arch.now kernel.now asked) }
{
    match asked {
        Some(ii) => Ok(ii),
        None => match bound(alloc, arch, kernel)?.mii {
            Some(least) => Ok(least),
            None => unreachable!(),
        },
    }
}

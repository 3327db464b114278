//! The units that offer an operation.
ghost use Rattle.std.specs.Prelude.{◌≡◌, ◌<◌, ◌≤◌, ◌↔◌, IsTrue, true, length, slice_index};
ghost use Rattle.cg_word.specs.Sets.{among};
ghost use Rattle.cg_model.specs.Array.{unit};
ghost use Rattle.cg_model.specs.Limits.{most_units};
ghost use Rattle.cg_place.specs.Placed.{IsOffered, offering};

use cg_arch::{Arch, Op};
use cg_model::Kernel;

/// Returns whether unit number `x` offers `op`.
fn offers(arch: &Arch, x: usize, op: Op) -> bool
    requires { x < length arch.now.units }
    ensures { result ≡ among (unit arch.now x).ops op }
{
    arch.units()[x].ops.has(op)
}

/// Returns whether each operation of `kernel` is offered by some unit of `arch`.
pub fn is_offered(arch: &Arch, kernel: &Kernel) -> bool
    ensures { IsTrue result ↔ IsOffered arch.now kernel.now }
{
    for node in kernel.nodes() {
        if count_offering(arch, node.op) == 0 {
            return false;
        }
    }
    true
}

/// Returns the number of units that offer `op`.
pub(crate) fn count_offering(arch: &Arch, op: Op) -> u32
    ensures value { result ≡ length (offering arch.now op) }
    ensures small { result ≤ most_units }
{
    let mut count = 0;
    for x in 0..arch.units().len() {
        if offers(arch, x, op) {
            count += 1;
        }
    }
    count
}

/// Returns the unit at index `place` of the ascending list of the units that offer `op`.
pub(crate) fn offering_unit(arch: &Arch, op: Op, place: u32) -> u32
    requires { place < length (offering arch.now op) }
    ensures value { result ≡ slice_index (offering arch.now op) place }
    ensures within { result < length arch.now.units }
    ensures offered { among (unit arch.now result).ops op ≡ true }
{
    let mut passed = 0;
    for x in 0..arch.units().len() {
        if offers(arch, x, op) {
            if passed == place {
                return x as u32;
            }
            passed += 1;
        }
    }
    unreachable!()
}

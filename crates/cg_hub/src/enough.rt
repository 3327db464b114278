//! When the hub suffices.
ghost use Rattle.std.specs.Prelude.{◌≡◌, ◌↔◌, IsTrue, IsSome};
ghost use Rattle.cg_place.specs.Placed.{IsOffered};
ghost use Rattle.cg_hub.specs.Hub as spec;
ghost use Rattle.cg_hub.specs.Hub.{HubEnough};

use crate::hosts::host;
use crate::registers::registers_before;
use cg_arch::Arch;
use cg_model::Kernel;

/// Returns the cycles that all nodes of `kernel` take one after another, each on the lowest-numbered unit that offers
/// its operation, with one cycle more than the latency of that unit. None where no unit offers some operation.
pub fn serial(arch: &Arch, kernel: &Kernel) -> Option<u32>
    ensures value { result ≡ spec.serial arch.now kernel.now }
    ensures offered { IsSome result ↔ IsOffered arch.now kernel.now }
{
    let nodes = kernel.nodes();
    let units = arch.units();
    let mut sum = 0;
    for v in 0..nodes.len() {
        let unit = host(arch, nodes[v].op)?;
        sum += units[unit as usize].latency + 1;
    }
    Some(sum)
}

/// Checks whether the hub of `arch` suffices for `kernel` at the interval `ii`.
pub fn hub_enough(arch: &Arch, kernel: &Kernel, ii: u32) -> bool
    ensures { IsTrue result ↔ HubEnough arch.now kernel.now ii }
{
    let need = registers_before(kernel, kernel.nodes().len() as u32);
    let hub = arch.hub().len();
    match serial(arch, kernel) {
        None => false,
        Some(total) => hub > 0 && need <= hub && ii > 0 && total <= ii && ii <= arch.contexts(),
    }
}

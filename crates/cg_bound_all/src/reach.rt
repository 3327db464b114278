//! Which other intervals a reason excludes.
ghost use Rattle.std.specs.Prelude.{ℕ, ◌≡◌, ◌≤◌, IsTrue, false};
ghost use Rattle.cg_bound_all.specs.Why.{AreAllNumbers, Excludes, Shows, hops_at, kind_of};

use crate::numbers::HopTables;
use crate::reason::Reason;
use cg_bound_registers::check_pressure;
use cg_recur::{Arch, Kernel};

/// Returns whether reasons of the kind of `reason`, which excludes interval `ii`, exclude each lower one from 2 on: a
/// circulation that excludes interval 2 shows that, every other reason does in any case. What doesn't show that excludes
/// each higher interval.
pub(crate) fn excludes_lower(
    arch: &Arch,
    kernel: &Kernel,
    tables: &HopTables,
    ii: u32,
    reason: &Reason,
) -> bool
    requires some { 2 ≤ ii }
    requires numbers { AreAllNumbers arch.now kernel.now tables.now }
    requires reason { Shows arch.now kernel.now (hops_at tables.now ii) ii reason.now }
    ensures lower { IsTrue result → (i : ℕ) → 2 ≤ i → i ≤ ii →
        Excludes arch.now kernel.now tables.now (kind_of reason.now) i }
    ensures higher { result ≡ false → (i : ℕ) → ii ≤ i → Shows arch.now kernel.now (hops_at tables.now i) i reason.now }
{
    match reason {
        Reason::Registers(pressure) => check_pressure(arch, kernel, &tables.rest.hops, 2, pressure),
        _ => true,
    }
}

/// Returns whether `reason`, which excludes interval `ii`, is known to exclude each higher one up to the contexts of
/// `arch`: a circulation that excludes the greatest is.
pub(crate) fn excludes_higher(
    arch: &Arch,
    kernel: &Kernel,
    tables: &HopTables,
    ii: u32,
    reason: &Reason,
) -> bool
    requires { Shows arch.now kernel.now (hops_at tables.now ii) ii reason.now }
    ensures { IsTrue result → (i : ℕ) → ii ≤ i → i ≤ arch.now.contexts →
        Shows arch.now kernel.now (hops_at tables.now i) i reason.now }
{
    match reason {
        Reason::Registers(pressure) if ii > 1 => {
            check_pressure(arch, kernel, &tables.rest.hops, arch.contexts(), pressure)
        }
        _ => false,
    }
}

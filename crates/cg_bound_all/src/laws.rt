//! Laws of reasons, and of the certificates of register pressure. Every function here has an empty body, and its contract is about the definitions alone.
ghost use Rattle.std.specs.Prelude.{◌≤◌, ◌⊎◌, ℕ};
ghost use Rattle.cg_model.specs.Kernel.{Kernel, IsKernel};
ghost use Rattle.cg_model.specs.Array.{Arch, IsArch};
ghost use Rattle.cg_model.specs.Mapping.{Mapping, IsLegal};
ghost use Rattle.cg_bound_registers.specs.declared.certificate.Pressure.{Pressure};
ghost use Rattle.cg_bound_registers.specs.declared.times.Times.{Times};
ghost use Rattle.cg_bound_registers.specs.Pressure.{IsPressure};
ghost use Rattle.cg_bound_registers.specs.Sums.{IsShort};
ghost use Rattle.cg_bound_registers.specs.Times.{AreLoose};
ghost use Rattle.cg_bound_all.specs.declared.reason.Kind.{Kind};
ghost use Rattle.cg_bound_all.specs.declared.numbers.HopTables.{HopTables};
ghost use Rattle.cg_bound_all.specs.declared.why.Why.{Why};
ghost use Rattle.cg_bound_all.specs.Why.{AreAllNumbers, Excludes, IsWhy};

/// States that no legal mapping `M` has an interval that a reason excludes.
pub fn excludes()
    ensures { (A : Arch) (K : Kernel) (M : Mapping) (f : HopTables) (kind : Kind) →
        IsKernel K → AreAllNumbers A K f → IsLegal A K M → Excludes A K f kind M.ii → ⊥ }
{}

/// States that each valid kernel on a valid architecture has a least interval that no reason excludes, or none, with
/// what excludes those below it.
pub fn always_explained()
    ensures { (A : Arch) (K : Kernel) → IsArch A → IsKernel K → (w : Why) × IsWhy A K w }
{}

/// States that for each interval `ii` up to 64 of a valid kernel on a valid architecture there is a certificate with
/// short lists, or times with stays that fit in the registers, if values cross at most 4096 registers by `hops`.
pub fn always_decided()
    ensures { (A : Arch) (K : Kernel) (hops : ℕ → ℕ → ℕ) (ii : ℕ) → IsArch A → IsKernel K → ((v p : ℕ) → hops v p ≤ 4096) → ii ≤ 64 →
        ((P : Pressure) × IsPressure A K hops ii P × IsShort P) ⊎ ((t : Times) × AreLoose A K hops ii t) }
{}

//! Laws of closed chains that are too long with the registers on their ways. Every function here has an empty body, and
//! its contract is about the definitions alone.
ghost use Rattle.std.specs.Prelude.{◌≡◌, ◌≤◌, ◌⊎◌, ◌↔◌, ℕ, List, length};
ghost use Rattle.cg_model.specs.Kernel.{Kernel, IsKernel, size};
ghost use Rattle.cg_model.specs.Array.{Arch, IsArch};
ghost use Rattle.cg_model.specs.Mapping.{Mapping, IsLegal};
ghost use Rattle.cg_recur.specs.declared.edge.EdgeId.{EdgeId};
ghost use Rattle.cg_recur.specs.Recurrences.{IsRecurrence};
ghost use Rattle.cg_bound_registers.specs.Pressure.{IsKept};
ghost use Rattle.cg_bound_recurrence.specs.WayCycles.{IsWayCycle, HasNoWayCycle};

/// States that no closed chain `ids` is too long for the interval of a legal mapping `M`, if the value of each data
/// edge crosses at least the number of registers that `hops` gives for its operand.
pub fn excludes()
    ensures { (A : Arch) (K : Kernel) (M : Mapping) (hops : ℕ → ℕ → ℕ) (ids : List EdgeId) →
        IsKernel K → IsLegal A K M → IsKept A K M hops → IsWayCycle A K hops M.ii ids → ⊥ }
{}

/// States that a closed chain `ids` that is too long for interval `j` is too long for each lower interval `i`.
pub fn falls()
    ensures { (A : Arch) (K : Kernel) (hops : ℕ → ℕ → ℕ) (i j : ℕ) (ids : List EdgeId) →
        i ≤ j → IsWayCycle A K hops j ids → IsWayCycle A K hops i ids }
{}

/// States that `ids` is too long exactly if it is a recurrence, where `hops` is 0 everywhere.
pub fn plain()
    ensures { (A : Arch) (K : Kernel) (hops : ℕ → ℕ → ℕ) (ii : ℕ) (ids : List EdgeId) →
        ((v p : ℕ) → hops v p ≡ 0) → IsWayCycle A K hops ii ids ↔ IsRecurrence A K ii ids }
{}

/// States that for each interval `ii` of a valid kernel on a valid architecture there is a closed chain that is too
/// long, with at most one edge per node of the kernel, or none at all, if values cross at most 4096 registers by `hops`.
pub fn always_decided()
    ensures { (A : Arch) (K : Kernel) (hops : ℕ → ℕ → ℕ) (ii : ℕ) → IsArch A → IsKernel K → ((v p : ℕ) → hops v p ≤ 4096) →
        ((ids : List EdgeId) × IsWayCycle A K hops ii ids × (length ids ≤ size K)) ⊎ HasNoWayCycle A K hops ii }
{}

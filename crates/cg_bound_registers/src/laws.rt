//! Laws of certificates of pressure. Every function here has an empty body, and its contract is about the definitions
//! alone.
ghost use Rattle.std.specs.Prelude.{ℕ, ◌≤◌};
ghost use Rattle.cg_model.specs.Kernel.{Kernel, IsKernel};
ghost use Rattle.cg_model.specs.Array.{Arch};
ghost use Rattle.cg_model.specs.Mapping.{Mapping, IsLegal};
ghost use Rattle.cg_bound_registers.specs.declared.certificate.Pressure.{Pressure};
ghost use Rattle.cg_bound_registers.specs.Pressure.{no_hops, IsKept, IsPressure, HasNoPressure, IsLoose, Falls, Rises};

/// States that no legal mapping whose values cross at least the registers in `hops` has an interval with a certificate
/// of pressure for `hops`, and that no legal mapping at all has an interval with a certificate that counts no registers
/// on ways.
pub fn excludes()
    ensures kept { (A : Arch) (K : Kernel) (M : Mapping) (hops : ℕ → ℕ → ℕ) (P : Pressure) →
        IsKernel K → IsLegal A K M → IsKept A K M hops → IsPressure A K hops M.ii P → ⊥ }
    ensures plain { (A : Arch) (K : Kernel) (M : Mapping) (P : Pressure) →
        IsKernel K → IsLegal A K M → IsPressure A K no_hops M.ii P → ⊥ }
{}

/// States that a certificate `P` that falls also excludes each smaller interval.
pub fn falls()
    ensures { (A : Arch) (K : Kernel) (hops : ℕ → ℕ → ℕ) (i j : ℕ) (P : Pressure) →
        Falls A K P → i ≤ j → IsPressure A K hops j P → IsPressure A K hops i P }
{}

/// States that a certificate `P` that rises also excludes each greater interval.
pub fn rises()
    ensures { (A : Arch) (K : Kernel) (hops : ℕ → ℕ → ℕ) (i j : ℕ) (P : Pressure) →
        Rises A K P → i ≤ j → IsPressure A K hops i P → IsPressure A K hops j P }
{}

/// States that times with stays that fit in the registers show that no certificate excludes the interval.
pub fn loose()
    ensures { (A : Arch) (K : Kernel) (hops : ℕ → ℕ → ℕ) (ii : ℕ) (time lasts longest : ℕ → ℕ) →
        IsKernel K → IsLoose A K hops ii time lasts longest → HasNoPressure A K hops ii }
{}

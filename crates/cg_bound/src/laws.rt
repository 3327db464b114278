//! Laws of intervals. Every function here has an empty body, and its contract is about the definitions alone.
ghost use Rattle.std.specs.Prelude.{◌≡◌, ◌<◌, ◌≤◌, ◌↔◌, ℕ};
ghost use Rattle.cg_model.specs.Kernel.{Kernel, IsKernel};
ghost use Rattle.cg_model.specs.Array.{Arch, IsArch};
ghost use Rattle.cg_model.specs.Mapping.{Mapping, IsLegal};
ghost use Rattle.cg_bound.specs.declared.interval.Certificate.{Certificate};
ghost use Rattle.cg_bound.specs.declared.interval.LeastInterval.{LeastInterval};
ghost use Rattle.cg_bound.specs.Bound.{IsForbidden, IsMii, Certifies, Shows, ShowsUnoffered, IsBound};

/// States that no legal mapping has an interval that a recurrence or an overfull set of operations forbids.
pub fn excludes()
    ensures { (A : Arch) (K : Kernel) (M : Mapping) → IsKernel K → IsLegal A K M → IsForbidden A K M.ii → ⊥ }
{}

/// States that there is at most one least interval, and that the forbidden ones are those below it.
pub fn one_least()
    ensures one { (A : Arch) (K : Kernel) (m n : ℕ) → IsMii A K m → IsMii A K n → m ≡ n }
    ensures below { (A : Arch) (K : Kernel) (m ii : ℕ) → IsMii A K m → 1 ≤ ii → IsForbidden A K ii ↔ (ii < m) }
{}

/// States that what is shown of an impossible interval is a certificate that it is; the class of an operation that no
/// unit offers is one for every interval.
pub fn certifies()
    ensures shown { (A : Arch) (K : Kernel) (ii : ℕ) (certificate : Certificate) → Shows A K ii certificate → Certifies A K ii certificate }
    ensures unoffered { (A : Arch) (K : Kernel) (ii : ℕ) (certificate : Certificate) → ShowsUnoffered A K certificate → Certifies A K ii certificate }
{}

/// States that each valid kernel has an answer on each valid architecture: a least interval with what is shown below
/// it, or an operation that no unit offers.
pub fn always_bounded()
    ensures { (A : Arch) (K : Kernel) → IsArch A → IsKernel K → (b : LeastInterval) × IsBound A K b }
{}

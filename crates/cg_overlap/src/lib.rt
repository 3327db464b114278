//! The overlap theorem: an array that runs the configuration of a legal mapping works on several turns of a kernel at
//! once, and computes what the turns compute one after the other.
//!
//! Every function here has an empty body. Its clauses are laws about the definitions of `cg_model`, which a crate that
//! calls it can use in its own proofs.
#![tactic(auto)]

ghost use Rattle.std.specs.Prelude.{◌≡◌, ◌<◌, ℕ, List, length, Option, Some, Contains};
ghost use Rattle.cg_model.specs.Work.{Image, Work};
ghost use Rattle.cg_model.specs.declared.kernel.Operand.TheVariants.{Edge};
ghost use Rattle.cg_model.specs.Kernel.{Kernel, IsKernel, HasOperand, size};
ghost use Rattle.cg_model.specs.Order.{IsUnaliased, HasNoAccess};
ghost use Rattle.cg_model.specs.Array.{Arch, IsArch};
ghost use Rattle.cg_model.specs.Mapping.{Mapping, IsLegal, IsShaped, Begins};
ghost use Rattle.cg_model.specs.Config.{Config};
ghost use Rattle.cg_model.specs.Configured.{configuration_of};
ghost use Rattle.cg_model.specs.Canonical.{IsCanonical};
ghost use Rattle.cg_model.specs.Machine.{at_cycle, word, begins, result as unit_result};
ghost use Rattle.cg_model.specs.Equations.{IsRun, AreSame};
ghost use Rattle.cg_model.specs.Overlap.{CarriesOne, Follows, LeavesTheSame};

/// States the overlap theorem, for every valid architecture and kernel, every legal mapping, every number of turns and
/// every image on which the accesses that matter are ordered by the kernel's edges.
///
/// Legality alone gives `once`: in a cycle a resource carries at most one value, and a unit begins
/// at most one. `follows`: the array that runs the mapping's configuration has, in every cycle, the
/// turns' values on the resources that carry them, and the turns' operands and results in the units
/// that begin them. `only`: its units begin nothing else. `leaves`: after its last cycle it has the
/// memory, the sixteen output streams and the count of accesses outside that the turns leave.
pub fn overlaps()
    ensures once { (A : Arch) (K : Kernel) (M : Mapping) → IsLegal A K M → CarriesOne A K M }
    ensures follows { (A : Arch) (K : Kernel) (M : Mapping) (n : ℕ) (image : Image) →
        IsArch A → IsKernel K → IsLegal A K M → IsUnaliased K n image →
        Follows A K M n image }
    ensures only { (A : Arch) (K : Kernel) (M : Mapping) (n : ℕ) (image : Image) → IsLegal A K M →
        (x c : ℕ) (w : Work) → x < length A.units →
        begins A (configuration_of A K M) n image x c ≡ Some w →
        (v : ℕ) × (i : ℕ) × (i < n) × Begins K M x c v i }
    ensures leaves { (A : Arch) (K : Kernel) (M : Mapping) (n : ℕ) (image : Image) →
        IsArch A → IsKernel K → IsLegal A K M → IsUnaliased K n image →
        LeavesTheSame A K M n image }
{}

/// States the overlap theorem for kernels that never access the memory: it needs no premise on the image.
pub fn overlaps_alone()
    ensures follows { (A : Arch) (K : Kernel) (M : Mapping) (n : ℕ) (image : Image) →
        IsArch A → IsKernel K → IsLegal A K M → HasNoAccess K →
        Follows A K M n image }
    ensures leaves { (A : Arch) (K : Kernel) (M : Mapping) (n : ℕ) (image : Image) →
        IsArch A → IsKernel K → IsLegal A K M → HasNoAccess K →
        LeavesTheSame A K M n image }
{}

/// States that the equations of the array have exactly one solution, for every configuration, canonical or not: the
/// machine that goes from cycle to cycle solves them, and any two solutions agree on each resource and unit of the
/// architecture, in memory, streams and count.
pub fn runs()
    ensures solved { (A : Arch) (C : Config) (n : ℕ) (image : Image) → IsArch A →
        IsRun A C n image
        (word A C n image)
        (begins A C n image)
        (unit_result A C n image)
        (λ c. (at_cycle A C n image c).memory)
        (λ port c. (at_cycle A C n image c).streams port)
        (λ c. (at_cycle A C n image c).outside) }
    ensures once { (A : Arch) (C : Config) (n : ℕ) (image : Image) → IsArch A →
        (w v : ℕ → ℕ → ℕ) (b d : ℕ → ℕ → Option Work) (r s : ℕ → ℕ → ℕ)
        (m l : ℕ → List ℕ) (x y : ℕ → ℕ → List ℕ) (o p : ℕ → ℕ) →
        IsRun A C n image w b r m x o → IsRun A C n image v d s l y p →
        AreSame A w v b d r s m l x y o p }
{}

/// States that the configuration of a legal mapping is canonical, and so is encoded by a file of bits.
pub fn configures()
    ensures { (A : Arch) (K : Kernel) (M : Mapping) →
        IsKernel K → IsLegal A K M →
        IsCanonical A (configuration_of A K M) }
{}

/// States that a mapping of the right shape has a route for each edge operand.
pub fn shapes()
    ensures { (K : Kernel) (M : Mapping) → IsShaped K M →
        (v p u d : ℕ) (init : List ℕ) → v < size K → HasOperand K v p (Edge u d init) →
        (path : List ℕ) × Contains M.routes (record { node = v; arg = p; path = path }) }
{}

//! Laws of the numbers of registers on ways. Every function here has an empty body, and its contract is about the
//! definitions alone.
ghost use Rattle.std.specs.Prelude.{ℕ, List, Option, None, length};
ghost use Rattle.cg_model.specs.Kernel.{Kernel, IsKernel, HasOperand};
ghost use Rattle.cg_model.specs.declared.kernel.Operand.TheVariants.{Edge};
ghost use Rattle.cg_model.specs.Array.{Arch, IsArch};
ghost use Rattle.cg_model.specs.Mapping.{Mapping, IsLegal};
ghost use Rattle.cg_bound_routes.specs.Ways.{AreLeastHops, KeepsHops, AreWays, AreSmall, KeepsWays};

/// States that in a legal mapping there is a way for each edge, and that the value has the time to pass the registers
/// of the way with the fewest.
pub fn keeps_hops()
    ensures { (A : Arch) (K : Kernel) (M : Mapping) → IsKernel K → IsLegal A K M → KeepsHops A K M }
{}

/// States that no legal mapping has an interval at which there is no way for one of the kernel's edges.
pub fn no_way()
    ensures { (A : Arch) (K : Kernel) (M : Mapping) (v p u d : ℕ) (init : List ℕ) → IsKernel K → IsLegal A K M → HasOperand K v p (Edge u d init) → AreLeastHops A K M.ii v p None → ⊥ }
{}

/// States that in a legal mapping each value has the time to pass the number of registers in the table of ways at its
/// interval.
pub fn kept()
    ensures { (A : Arch) (K : Kernel) (M : Mapping) (rows : List (List (Option ℕ))) → IsKernel K → IsLegal A K M → AreWays A K M.ii rows → KeepsWays A K M rows }
{}

/// States that each kernel has a table of the least numbers of registers on the ways of its edges through a valid
/// architecture, and that these are at most the number of resources.
pub fn always_found()
    ensures { (A : Arch) (K : Kernel) (ii : ℕ) → IsArch A → (rows : List (List (Option ℕ))) × AreWays A K ii rows × AreSmall (length A.resources) rows }
{}

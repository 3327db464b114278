//! Kernels that are rewritten in place, and the laws of rewritten kernels: what has to be seen of each node of a rewritten
//! kernel in each turn for the kernel to leave what the given kernel leaves, and that this holds of one rewriting after
//! another. The functions of this file have empty bodies, and their contracts are about definitions alone.
#![tactic(auto)]

ghost use Rattle.std.specs.Prelude.{List, ℕ};
ghost use Rattle.cg_model.specs.declared.kernel.OrderEdge.{OrderEdge};
ghost use Rattle.cg_model.specs.Kernel.{Kernel, IsKernel, IsWired};
ghost use Rattle.cg_model.specs.Turns.{val};
ghost use Rattle.cg_model.specs.Work.{Image};
ghost use Rattle.cg_simplify_draft.specs.Follows.{Follows, RunsAlike};
ghost use Rattle.cg_simplify_draft.specs.Restates.{Restates};
ghost use Rattle.cg_simplify_draft.specs.Rewritten.{IsRewritten};

mod draft;
mod passed;

pub use draft::Draft;
pub use passed::Passed;

/// States that a kernel that follows a valid kernel leaves the same memory and streams, with at most as many accesses
/// outside the memory.
///
/// `alike`: whatever words it follows on, they are the values of its nodes. `itself`: each kernel follows itself on the
/// values of its nodes, also with other order edges.
pub fn followed()
    ensures alike { (K L : Kernel) (image : Image) (n : ℕ) (f : ℕ → ℕ) (W : ℕ → ℕ → ℕ) →
        IsKernel K → IsWired L → Follows K L image n f W → RunsAlike K L image n W }
    ensures itself { (K : Kernel) (order : List OrderEdge) (image : Image) (n : ℕ) → IsWired K →
        Follows K (record { nodes = K.nodes; order = order }) image n (λ v. v) (val K image) }
{}

/// States that what a pass gives can be given to another pass.
///
/// `composed`: a kernel rewritten twice is rewritten. `itself`: a kernel with other order edges is rewritten.
pub fn composed()
    ensures composed { (K L M : Kernel) → IsRewritten K L → IsRewritten L M → IsRewritten K M }
    ensures itself { (K : Kernel) (order : List OrderEdge) → IsWired K →
        IsRewritten K (record { nodes = K.nodes; order = order }) }
{}

/// States that a kernel of which each node does on a valid kernel's values what the node of the valid kernel does is a
/// rewriting of it. The new kernel's data edges need only be such that its turns have a meaning.
pub fn restated()
    ensures { (K L : Kernel) → IsKernel K → IsWired L → Restates K L → IsRewritten K L }
{}

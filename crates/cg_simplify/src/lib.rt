//! Kernels rewritten into ones with fewer nodes that leave the same memory and streams, pass by pass.
#![tactic(auto)]

ghost use Rattle.std.specs.Prelude.{ℕ, List, ◌≡◌, ◌<◌, ◌+◌, ◌++◌, length, slice_index};
ghost use Rattle.cg_word.specs.declared.op.Op.TheVariants.{Const};
ghost use Rattle.cg_model.specs.declared.kernel.Operand.{Operand};
ghost use Rattle.cg_model.specs.declared.kernel.Operand.TheVariants.{Const as Constant, Edge};
ghost use Rattle.cg_model.specs.Kernel.{Kernel, HasOperand, IsKernel, IsWired, node, size};
ghost use Rattle.cg_simplify_draft.specs.Rewritten.{IsRewritten};
ghost use Rattle.cg_simplify.specs.Operands.{Exchanges, Gives, IsAlike};

mod copy;
mod guards;
mod joining;
mod live;
mod merging;
mod number;
mod pairing;
mod removal;
mod restating;
mod settle;
mod simplifying;
mod text;
mod through;
mod words;
mod zero;

use cg_simplify_draft::restated;
pub use merging::merge;
pub use removal::dead;
pub use restating::texts;
pub use settle::operands;
pub use simplifying::{Options, simplify};

/// States that a kernel is rewritten where operands of its nodes are exchanged for operands with the same words, and
/// which operands these are.
///
/// `rewritten`: the new kernel's data edges need only be such that its turns have a meaning. `copies`: a `const` node
/// has the words of its operand. `constants`: an edge from a node that always has one word is that word, if its initial
/// words are. `edges`: an edge from a node that has the words of another edge is the edge over both.
pub fn operands_exchanged()
    ensures rewritten { (K L : Kernel) → IsKernel K → IsWired L → Exchanges K L → IsRewritten K L }
    ensures copies { (K : Kernel) (w : ℕ) (o : Operand) → IsWired K → w < size K → (node K w).op ≡ Const →
        HasOperand K w 0 o → Gives K w o }
    ensures constants { (K : Kernel) (w d k : ℕ) (init : List ℕ) → length init ≡ d → Gives K w (Constant k) →
        ((j : ℕ) → j < d → slice_index init j ≡ k) → IsAlike K (Edge w d init) (Constant k) }
    ensures edges { (K : Kernel) (w d u e : ℕ) (init more : List ℕ) → length init ≡ d → Gives K w (Edge u e more) →
        IsAlike K (Edge w d init) (Edge u (d + e) (init ++ more)) }
{
    restated();
}

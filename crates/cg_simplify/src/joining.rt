//! Loads that may take the word that an earlier load of the same text has loaded.

use cg_depend::Addresses;
use cg_model::{Kernel, Node};
use cg_simplify_order::{GivenKernel, Rewriting};
use std::alloc::{AllocError, Global};
use std::marker::Model;

/// A kernel with what says which of its loads may be joined. Contracts see it as the kernel.
#[derive(Drop)]
pub(crate) struct Joins<'k> {
    kernel: &'k Kernel,
    addresses: Addresses<'k>,
    /// The needs by the kernel that this one was rewritten from.
    rewriting: Rewriting<'k>,
}

impl<'k> Model for Joins<'k> {
    ghost use Rattle.std.specs.Prelude.{◌≡◌};
    ghost use Rattle.cg_model.specs.Kernel as kernels;

    ghost Value = { kernels.Kernel };

    ghost view = { λ j. j.kernel.now };

    ghost invariant = { λ j. (j.addresses ≡ j.kernel.now) × (j.rewriting.rewritten ≡ j.kernel.now) };
}

impl<'k> Joins<'k> {
    ghost use Rattle.std.specs.Prelude.{◌≡◌, ◌<◌, IfOk, IsTrue};
    ghost use Rattle.cg_word.specs.Word.{is_store};
    ghost use Rattle.cg_model.specs.Kernel.{IsKernel, node, size};
    ghost use Rattle.cg_simplify_draft.specs.Rewritten.{IsRewritten};
    ghost use Rattle.cg_simplify.specs.Joining.{IsApart, MayJoin};

    /// Returns `kernel`, which `given` was rewritten into, with what says which of its loads may be joined.
    pub(crate) fn of(
        alloc: Global,
        given: &'k GivenKernel<'k>,
        kernel: &'k Kernel,
    ) -> Result<Joins<'k>, AllocError>
        requires { IsRewritten given.now kernel.now }
        ensures { IfOk result (λ j. j ≡ kernel.now) }
    {
        let addresses = Addresses::of(alloc, kernel)?;
        let rewriting = Rewriting::of(alloc, given, kernel)?;
        Ok(Joins {
            kernel,
            addresses,
            rewriting,
        })
    }

    /// Returns the nodes of the kernel.
    pub(crate) fn nodes(&self) -> &[Node]
        ensures nodes { result.now ≡ self.now.nodes }
        ensures valid { IsKernel self.now }
    {
        self.kernel.nodes()
    }

    /// Returns whether load `n` may take the word of the earlier load `m` of its text: the stores between them leave it,
    /// and none has to come before `m` over fewer turns than before `n`.
    pub(crate) fn may_join(&self, m: u32, n: u32) -> bool
        requires earlier { m < n }
        requires inside { n < size self.now }
        ensures { IsTrue result → MayJoin self.now m n }
    {
        self.are_apart(m, n) && self.keeps_needs(m, n)
    }

    /// Returns whether the stores between `m` and `n` leave the word that `m` loads.
    fn are_apart(&self, m: u32, n: u32) -> bool
        requires earlier { m < n }
        requires inside { n < size self.now }
        ensures { IsTrue result → MayJoin self.now m n }
    {
        for w in m + 1..n {
            if self.is_store(w) && !self.is_apart(m, w) {
                return false;
            }
        }
        true
    }

    /// Returns whether node `w` is a store.
    fn is_store(&self, w: u32) -> bool
        requires { w < size self.now }
        ensures { result ≡ is_store (node self.now w).op }
    {
        self.nodes()[w as usize].op.is_store()
    }

    /// Returns whether by their addresses `w` never accesses the word that `m` accesses in the same turn.
    fn is_apart(&self, m: u32, w: u32) -> bool
        requires m { m < size self.now }
        requires w { w < size self.now }
        ensures { IsTrue result → IsApart self.now m w }
    {
        match self.addresses.gap(m, w, 0) {
            Some(turns) => turns != 0,
            None => true,
        }
    }

    /// Returns whether each store that `m` has to come after has to come before `n` over at most as many turns.
    fn keeps_needs(&self, m: u32, n: u32) -> bool
        requires m { m < size self.now }
        requires n { n < size self.now }
    {
        for w in 0..self.nodes().len() {
            if !self.keeps_need(w as u32, m, n) {
                return false;
            }
        }
        true
    }

    /// Returns whether `n` has to come after `w` over at most as many turns as `m`, if `m` has to.
    fn keeps_need(&self, w: u32, m: u32, n: u32) -> bool
        requires w { w < size self.now }
        requires m { m < size self.now }
        requires n { n < size self.now }
    {
        let Some(turns) = self.rewriting.need(w, m) else {
            return true;
        };
        match self.rewriting.need(w, n) {
            Some(other) => other <= turns,
            None => false,
        }
    }
}

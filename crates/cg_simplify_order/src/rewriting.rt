//! A rewritten kernel beside the given one, and which of its accesses have to come after which.
ghost use Rattle.std.specs.Prelude.{◌≡◌, ◌&&◌, ◌||◌};
ghost use Rattle.cg_word.specs.Word.{is_access, is_store};

use crate::given::GivenKernel;
use crate::namesakes::namesakes_of;
use cg_depend::Addresses;
use cg_model::{Kernel, MOST_ORDER_DISTANCE};
use cg_word::Op;
use std::alloc::{AllocError, Global};
use std::marker::Model;

/// A given kernel and the kernel that it was rewritten into, with what says how their accesses are ordered.
#[derive(Drop)]
pub struct Rewriting<'k> {
    given: &'k GivenKernel<'k>,
    rewritten: &'k Kernel,
    /// The numbers of the namesakes in the given kernel.
    numbers: Vec<u32>,
    /// The addresses in the rewritten kernel.
    addresses: Addresses<'k>,
}

impl<'k> Model for Rewriting<'k> {
    ghost use Rattle.std.specs.Prelude.{◌≡◌};
    ghost use Rattle.cg_simplify_order.specs.Found as found;

    ghost Value = { found.Pair };

    ghost view = { λ r. record { given = r.given.now; rewritten = r.rewritten.now } };

    ghost invariant = { λ r. found.HasNamesakes r.given.now r.rewritten.now r.numbers.items × (r.addresses ≡ r.rewritten.now) };
}

impl<'k> Rewriting<'k> {
    ghost use Rattle.std.specs.Prelude.{◌≡◌, ◌≢◌, ◌<◌, IfOk, MatchOption, true};
    ghost use Rattle.cg_model.specs.Kernel.{IsKernel, size};
    ghost use Rattle.cg_depend.specs.Depend.{conflict};
    ghost use Rattle.cg_simplify_draft.specs.Rewritten.{IsRewritten};
    ghost use Rattle.cg_simplify_order.specs.Needs.{IsNeed};
    ghost use Rattle.cg_simplify_order.specs.Found.{HasNoNeed};

    /// Returns `given` and `rewritten` with what says how their accesses are ordered.
    pub fn of(
        alloc: Global,
        given: &'k GivenKernel<'k>,
        rewritten: &'k Kernel,
    ) -> Result<Rewriting<'k>, AllocError>
        requires { IsRewritten given.now rewritten.now }
        ensures pair { IfOk result (λ r. r ≡ record { given = given.now; rewritten = rewritten.now }) }
        ensures valid { IfOk result (λ r. IsKernel given.now) }
    {
        let numbers = namesakes_of(alloc, given.kernel(), rewritten)?;
        let addresses = Addresses::of(alloc, rewritten)?;
        Ok(Rewriting {
            given,
            rewritten,
            numbers,
            addresses,
        })
    }

    /// Returns the number of nodes of the rewritten kernel.
    pub(crate) fn size(&self) -> usize
        ensures { result ≡ size self.now.rewritten }
    {
        self.rewritten.nodes().len()
    }

    /// Returns over how many turns node `v` of the rewritten kernel has to come after node `u`; None where it doesn't.
    pub fn need(&self, u: u32, v: u32) -> Option<u32>
        requires u { u < size self.now.rewritten }
        requires v { v < size self.now.rewritten }
        ensures { MatchOption result (HasNoNeed self.now.given self.now.rewritten u v) (IsNeed self.now.given self.now.rewritten u v) }
    {
        if u != v && self.conflict(u, v) {
            self.turns(u, v)
        } else {
            None
        }
    }

    /// Returns whether the nodes `u` and `v` of the rewritten kernel access the memory and at least one of them stores.
    fn conflict(&self, u: u32, v: u32) -> bool
        requires u { u < size self.now.rewritten }
        requires v { v < size self.now.rewritten }
        ensures { result ≡ conflict self.now.rewritten u v }
    {
        let nodes = self.rewritten.nodes();
        meet(nodes[u as usize].op, nodes[v as usize].op)
    }

    /// Returns over how many turns node `v` has to come after node `u`, of which one stores; None where it hasn't to.
    fn turns(&self, u: u32, v: u32) -> Option<u32>
        requires u { u < size self.now.rewritten }
        requires v { v < size self.now.rewritten }
        requires other { u ≢ v }
        requires meet { conflict self.now.rewritten u v ≡ true }
        ensures { MatchOption result (HasNoNeed self.now.given self.now.rewritten u v) (IsNeed self.now.given self.now.rewritten u v) }
    {
        let before = self.numbers[u as usize];
        let after = self.numbers[v as usize];
        let Some(least) = self.given.distance(before, after) else {
            return None;
        };
        match self.addresses.gap(u, v, least) {
            Some(turns) => Some(turns.min(MOST_ORDER_DISTANCE)),
            None => None,
        }
    }
}

/// Returns whether the operations `one` and `other` both access the memory, and at least one of them stores.
fn meet(one: Op, other: Op) -> bool
    ensures { result ≡ (is_access one && (is_access other && (is_store one || is_store other))) }
{
    one.is_access() && other.is_access() && (one.is_store() || other.is_store())
}

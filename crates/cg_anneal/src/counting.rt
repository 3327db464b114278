//! How the cost of a state is counted.

use crate::walk::Walk;
use std::alloc::{AllocError, Global};

/// From the counts that are kept from move to move, or anew from the whole state.
#[derive(Clone, Copy, Drop)]
pub(crate) enum Counting {
    /// From the counts that are kept.
    Kept,
    /// Anew.
    Anew,
}

impl<'g, 'a> Walk<'g, 'a> {
    ghost use Rattle.std.specs.Prelude.{◌≡◌, IfOk};
    ghost use Rattle.cg_walk_spec.specs.State.{cost};

    /// Returns the cost of the state, counted as `counting` says. Only counting it anew allocates memory.
    pub(crate) fn cost_by(&self, alloc: Global, counting: Counting) -> Result<u64, AllocError>
        ensures { IfOk result (λ c. c ≡ cost self.now.arch self.now.kernel self.now.ii self.now.state) }
    {
        match counting {
            Counting::Kept => Ok(self.cost()),
            Counting::Anew => self.recount(alloc),
        }
    }
}

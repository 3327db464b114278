//! The plain walk, and the cost of a state counted anew.
ghost use Rattle.std.specs.Prelude.{◌≤◌, IfOk};
ghost use Rattle.cg_model.specs.Limits.{most_moves};
ghost use Rattle.cg_anneal.specs.Ended.{IsWalked};

use crate::counting::Counting;
use crate::finding::{Found, search_by};
use crate::walk::{WEIGHT, Walk};
use cg_congestion::laws::PlainUsage;
use cg_diagnostics::Silent;
use cg_model::Request;
use cg_place::laws::PlainPlacement;
use cg_place::{Move, Task};
use std::alloc::{AllocError, Global};

/// Makes the walk that `search` makes, and counts the cost of each state anew, from all its places and all its routes.
pub fn plain_search<'a>(
    alloc: Global,
    task: &Task<'a>,
    request: Request,
) -> Result<Found<'a>, AllocError>
    requires few { request.moves ≤ most_moves }
    ensures { IfOk result (IsWalked task.now.arch task.now.kernel task.now.ii request.seed request.moves) }
{
    search_by(alloc, Counting::Anew, task, request, &mut Silent)
}

impl<'g, 'a> Walk<'g, 'a> {
    ghost use Rattle.std.specs.Prelude.{◌≡◌, ◌≤◌, ◌^◌, IfOk};
    ghost use Rattle.cg_congestion.specs.Table.{excess};
    ghost use Rattle.cg_walk_spec.specs.State.{cost, table_of_state};

    /// Returns a placement of the walk's places. Its earliest times are 0, as no count depends on them.
    fn placement_anew(&self, alloc: Global) -> Result<PlainPlacement<'a>, AllocError>
        ensures arch { IfOk result (λ p. p.arch ≡ self.now.arch) }
        ensures kernel { IfOk result (λ p. p.kernel ≡ self.now.kernel) }
        ensures interval { IfOk result (λ p. p.ii ≡ self.now.ii) }
        ensures places { IfOk result (λ p. p.places ≡ self.now.state.places) }
    {
        self.holds();
        let kernel = self.kernel();
        let count = kernel.nodes().len();
        let early = vec![in alloc; 0; count]?;
        let mut placement = PlainPlacement::start(
            alloc,
            self.arch(),
            kernel,
            self.interval(),
            &early,
        )?;
        for node in 0..count as u32 {
            let place = self.place_of(node);
            let _ = placement.apply(Move { node, place });
        }
        Ok(placement)
    }

    /// Returns a use table with the claims of the walk's routes.
    fn usage_anew(&self, alloc: Global) -> Result<PlainUsage<'a>, AllocError>
        ensures excess { IfOk result (λ u. excess u ≡ excess (table_of_state self.now.arch self.now.kernel self.now.ii self.now.state)) }
        ensures few { IfOk result (λ u. excess u ≤ 2 ^ 48) }
    {
        self.holds();
        let mut usage = PlainUsage::new(alloc, self.graph())?;
        for i in 0..self.count() {
            self.add_to(&mut usage, i)?;
        }
        Ok(usage)
    }

    /// Counts the cost of the state anew.
    pub(crate) fn recount(&self, alloc: Global) -> Result<u64, AllocError>
        ensures { IfOk result (λ c. c ≡ cost self.now.arch self.now.kernel self.now.ii self.now.state) }
    {
        let placement = self.placement_anew(alloc)?;
        let usage = self.usage_anew(alloc)?;
        let heavy = self.missing_anew()
            + u64::from(placement.order_violations())
            + u64::from(placement.unit_excess());
        Ok(WEIGHT * heavy + usage.excess())
    }
}

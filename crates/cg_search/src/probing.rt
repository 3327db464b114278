//! Probes, upwards.
ghost use Rattle.std.specs.Prelude.{◌≤◌, IfOk};
ghost use Rattle.cg_model.specs.Limits.{most_moves};
ghost use Rattle.cg_search.specs.Course.{IsPosed, Comes};

use crate::misses::add;
use crate::plan::probe;
use crate::trying::{Call, Found, Outcome, search_at};
use cg_diagnostics::Aside;
use cg_intervals::last_tried;
use cg_search_respond::Responded;
use std::alloc::{AllocError, Global};

/// Probes at the intervals of `call` from the first one upwards, until a mapping is found or the last interval is done.
/// `aside` takes the progress.
pub(crate) fn probe_upwards<'a>(
    alloc: Global,
    call: &Call<'a, '_>,
    aside: &mut dyn Aside,
) -> Result<Outcome<'a>, AllocError>
    requires posed { IsPosed call.now.arch.now call.now.kernel.now call.now.request.ii call.now.first }
    requires few { call.now.request.moves ≤ most_moves }
    ensures { IfOk result (Comes call.now.arch.now call.now.kernel.now call.now.request.ii call.now.request.moves call.now.first) }
{
    call.arch.contexts();
    let mut misses = Vec::new(alloc);
    for ii in call.first..last_tried(call.arch, call.request.ii) + 1 {
        match search_at(alloc, call, ii, probe(call.request, ii), aside)? {
            Responded::Mapped(mapping, moves) => {
                return Ok(Outcome::Found(Found { mapping, moves }));
            }
            Responded::Spent { faults, mapping } => add(call, &mut misses, faults, mapping)?,
        }
    }
    Ok(Outcome::Left(misses))
}

//! Long searches, downwards from a mapping.
ghost use Rattle.std.specs.Prelude.{◌≤◌, IfOk, IfSome};
ghost use Rattle.cg_model.specs.Limits.{most_moves};
ghost use Rattle.cg_intervals.specs.Intervals.{last_tried};
ghost use Rattle.cg_search.specs.Course.{IsPosed, IsLegalFound};

use crate::trying::{Call, Found, search_long};
use cg_diagnostics::Aside;
use cg_search_respond::Responded;
use std::alloc::{AllocError, Global};

/// Makes long searches at the intervals of `call` below that of `found`, downwards, until one finds no mapping or the
/// first interval is done, and returns the mapping of the least interval. At the `failed` intervals a long search found
/// no mapping before. `aside` takes the progress.
pub(crate) fn descend<'a>(
    alloc: Global,
    call: &Call<'a, '_>,
    found: Found<'a>,
    failed: &[u32],
    aside: &mut dyn Aside,
) -> Result<Found<'a>, AllocError>
    requires posed { IsPosed call.now.arch.now call.now.kernel.now call.now.request.ii call.now.first }
    requires few { call.now.request.moves ≤ most_moves }
    requires found { IsLegalFound call.now.arch.now call.now.kernel.now call.now.request.ii call.now.request.moves call.now.first found }
    ensures { IfOk result (IsLegalFound call.now.arch.now call.now.kernel.now call.now.request.ii call.now.request.moves call.now.first) }
{
    let at = found.mapping.mapping().ii();
    let mut found = found;
    for step in 0..at - call.first {
        match lower(alloc, call, at - 1 - step, failed, aside)? {
            Some(lesser) => found = lesser,
            None => break,
        }
    }
    Ok(found)
}

/// Makes a long search at the interval `ii` of `call`, unless it is one of the `failed` intervals; returns the mapping,
/// if it finds one. `aside` takes the progress.
fn lower<'a>(
    alloc: Global,
    call: &Call<'a, '_>,
    ii: u32,
    failed: &[u32],
    aside: &mut dyn Aside,
) -> Result<Option<Found<'a>>, AllocError>
    requires posed { IsPosed call.now.arch.now call.now.kernel.now call.now.request.ii call.now.first }
    requires few { call.now.request.moves ≤ most_moves }
    requires from { call.now.first ≤ ii }
    requires to { ii ≤ last_tried call.now.arch.now call.now.request.ii }
    ensures { IfOk result (λ found. IfSome found (IsLegalFound call.now.arch.now call.now.kernel.now call.now.request.ii call.now.request.moves call.now.first)) }
{
    if failed.contains(&ii) {
        return Ok(None);
    }
    match search_long(alloc, call, ii, aside)? {
        Responded::Mapped(mapping, moves) => Ok(Some(Found { mapping, moves })),
        Responded::Spent { .. } => Ok(None),
    }
}

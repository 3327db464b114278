//! The order of the searches of a call.
ghost use Rattle.std.specs.Prelude.{◌≡◌, ◌+◌, ◌≤◌, IfOk, length};
ghost use Rattle.cg_model.specs.Limits.{most_moves};
ghost use Rattle.cg_intervals.specs.Intervals.{last_tried};
ghost use Rattle.cg_search.specs.Search.{AreMissedFrom};
ghost use Rattle.cg_search.specs.Course.{IsPosed, Comes};

use crate::descent::descend;
use crate::misses::{Miss, add};
use crate::probing::probe_upwards;
use crate::retrying::{Retried, retry};
use crate::trying::{Call, Found, Outcome, search_long};
use cg_diagnostics::Aside;
use cg_search_respond::Responded;
use std::alloc::{AllocError, Global};

/// Searches at the intervals of `call`: at the interval that is asked for, by a long search; otherwise by probes
/// upwards until one finds a mapping, and by long searches downwards from there. `aside` takes the progress.
pub(crate) fn run_schedule<'a>(
    alloc: Global,
    call: &Call<'a, '_>,
    aside: &mut dyn Aside,
) -> Result<Outcome<'a>, AllocError>
    requires posed { IsPosed call.now.arch.now call.now.kernel.now call.now.request.ii call.now.first }
    requires few { call.now.request.moves ≤ most_moves }
    ensures { IfOk result (Comes call.now.arch.now call.now.kernel.now call.now.request.ii call.now.request.moves call.now.first) }
{
    if let Some(_) = call.request.ii {
        return search_requested(alloc, call, aside);
    }
    match probe_upwards(alloc, call, aside)? {
        Outcome::Found(found) => Ok(Outcome::Found(descend(alloc, call, found, &[], aside)?)),
        Outcome::Left(misses) => from_nearest(alloc, call, misses, aside),
    }
}

/// Makes a long search at the interval that is asked for, which is the first of `call`. `aside` takes the progress.
fn search_requested<'a>(
    alloc: Global,
    call: &Call<'a, '_>,
    aside: &mut dyn Aside,
) -> Result<Outcome<'a>, AllocError>
    requires posed { IsPosed call.now.arch.now call.now.kernel.now call.now.request.ii call.now.first }
    requires few { call.now.request.moves ≤ most_moves }
    requires only { call.now.first ≡ last_tried call.now.arch.now call.now.request.ii }
    ensures { IfOk result (Comes call.now.arch.now call.now.kernel.now call.now.request.ii call.now.request.moves call.now.first) }
{
    match search_long(alloc, call, call.first, aside)? {
        Responded::Mapped(mapping, moves) => Ok(Outcome::Found(Found { mapping, moves })),
        Responded::Spent { faults, mapping } => {
            let mut misses = Vec::new(alloc);
            add(call, &mut misses, faults, mapping)?;
            Ok(Outcome::Left(misses))
        }
    }
}

/// Makes long searches at the intervals of `call` that are nearest to a mapping, where the probes left
/// `misses`, and then downwards from the first interval at which a search finds a mapping. `aside` takes the progress.
fn from_nearest<'a>(
    alloc: Global,
    call: &Call<'a, '_>,
    misses: Vec<Miss>,
    aside: &mut dyn Aside,
) -> Result<Outcome<'a>, AllocError>
    requires posed { IsPosed call.now.arch.now call.now.kernel.now call.now.request.ii call.now.first }
    requires few { call.now.request.moves ≤ most_moves }
    requires misses { AreMissedFrom call.now.arch.now call.now.kernel.now call.now.first misses.items }
    requires all { call.now.first + length misses.items ≡ last_tried call.now.arch.now call.now.request.ii + 1 }
    ensures { IfOk result (Comes call.now.arch.now call.now.kernel.now call.now.request.ii call.now.request.moves call.now.first) }
{
    let Retried { outcome, failed } = retry(alloc, call, misses, aside)?;
    match outcome {
        Outcome::Found(found) => {
            let least = descend(alloc, call, found, failed.as_slice(), aside)?;
            Ok(Outcome::Found(least))
        }
        Outcome::Left(misses) => Ok(Outcome::Left(misses)),
    }
}

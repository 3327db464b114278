//! The answer: why an interval is impossible, a mapping, or why none is found: what is left at each interval, or what
//! excludes all intervals.
ghost use Rattle.std.specs.Prelude.{◌≡◌, ◌+◌, ◌≤◌, IfOk, length};
ghost use Rattle.cg_model.specs.Limits.{most_moves};
ghost use Rattle.cg_bound.specs.Bound.{IsOpen};
ghost use Rattle.cg_intervals.specs.Intervals as spec;
ghost use Rattle.cg_intervals.specs.Intervals.{IsAsked};
ghost use Rattle.cg_search.specs.Course.{IsPosed};
ghost use Rattle.cg_search.specs.Search.{AreMissedFrom, IsAnswer, IsTried};

use crate::begin::{Begin, Exclusion, find_begin};
use crate::misses::Miss;
use crate::schedule::run_schedule;
use crate::trying::{Call, Outcome};
use cg_arch::Arch;
use cg_bound::{IntervalVerdict, verdict};
use cg_diagnostics::Aside;
use cg_hub::{hub_enough, hub_mapping};
use cg_intervals::{Answer, FoundBy, last_tried};
use cg_model::{Kernel, Request};
use cg_search_respond::Wiring;
use std::alloc::{AllocError, Global};

/// Why a search finds no mapping.
#[derive(Drop)]
pub enum Failure {
    /// Each interval that may be tried is excluded, and this excludes the last.
    Excluded(Exclusion),
    /// No mapping was found at the intervals that were tried.
    Missed {
        /// The first interval, in cycles.
        first: u32,
        /// What is left at each interval from the first one on.
        misses: Vec<Miss>,
    },
}

/// Searches a mapping of `kernel` on `arch`, at the interval that `request` asks for, or at the intervals from the
/// least one that no reason excludes up to the number of the architecture's contexts; and then over the hub. `aside`
/// takes the progress.
pub fn search_answer<'a>(
    alloc: Global,
    arch: &'a Arch,
    kernel: &'a Kernel,
    request: Request,
    aside: &mut dyn Aside,
) -> Result<Answer<'a, Failure>, AllocError>
    requires within { IsAsked arch.now request.ii }
    requires few { request.moves ≤ most_moves }
    ensures { IfOk result (IsAnswer arch.now kernel.now request.ii request.moves) }
{
    match verdict(alloc, arch, kernel, last_tried(arch, request.ii))? {
        IntervalVerdict::Impossible(certificate) => Ok(Answer::Impossible(certificate)),
        IntervalVerdict::Allowed => search_allowed(alloc, arch, kernel, request, aside),
    }
}

/// Searches at the intervals from the least one that no reason excludes to the last one. `aside` takes the progress.
fn search_allowed<'a>(
    alloc: Global,
    arch: &'a Arch,
    kernel: &'a Kernel,
    request: Request,
    aside: &mut dyn Aside,
) -> Result<Answer<'a, Failure>, AllocError>
    requires within { IsAsked arch.now request.ii }
    requires few { request.moves ≤ most_moves }
    requires free { IsOpen arch.now kernel.now (spec.last_tried arch.now request.ii) }
    ensures { IfOk result (IsAnswer arch.now kernel.now request.ii request.moves) }
{
    match find_begin(alloc, arch, kernel, request.ii)? {
        Begin::At(first) => {
            let wiring = Wiring::new(alloc, arch)?;
            let call = Call {
                arch,
                kernel,
                wiring: &wiring,
                request,
                first,
            };
            search_from(alloc, &call, aside)
        }
        Begin::Nowhere(exclusion) => Ok(Answer::Unmapped(Failure::Excluded(exclusion))),
    }
}

/// Searches at the intervals of `call` from the first to the last one. `aside` takes the progress.
fn search_from<'a>(
    alloc: Global,
    call: &Call<'a, '_>,
    aside: &mut dyn Aside,
) -> Result<Answer<'a, Failure>, AllocError>
    requires posed { IsPosed call.now.arch.now call.now.kernel.now call.now.request.ii call.now.first }
    requires few { call.now.request.moves ≤ most_moves }
    ensures { IfOk result (IsTried call.now.arch.now call.now.kernel.now call.now.request.ii call.now.request.moves call.now.first) }
{
    match run_schedule(alloc, call, aside)? {
        Outcome::Found(found) => Ok(Answer::Mapped(found.mapping, FoundBy::Moves(found.moves))),
        Outcome::Left(misses) => over_hub(alloc, call, misses),
    }
}

/// Takes the hub's mapping of the first interval of `call` where it suffices, if there is one. The search left
/// `misses`.
fn over_hub<'a>(
    alloc: Global,
    call: &Call<'a, '_>,
    misses: Vec<Miss>,
) -> Result<Answer<'a, Failure>, AllocError>
    requires posed { IsPosed call.now.arch.now call.now.kernel.now call.now.request.ii call.now.first }
    requires misses { AreMissedFrom call.now.arch.now call.now.kernel.now call.now.first misses.items }
    requires all { call.now.first + length misses.items ≡ spec.last_tried call.now.arch.now call.now.request.ii + 1 }
    ensures { IfOk result (IsTried call.now.arch.now call.now.kernel.now call.now.request.ii call.now.request.moves call.now.first) }
{
    call.arch.contexts();
    for ii in call.first..last_tried(call.arch, call.request.ii) + 1 {
        if hub_enough(call.arch, call.kernel, ii) {
            let mapping = hub_mapping(alloc, call.arch, call.kernel, ii)?;
            mapping.mapping();
            return Ok(Answer::Mapped(mapping, FoundBy::Hub));
        }
    }
    Ok(Answer::Unmapped(Failure::Missed {
        first: call.first,
        misses,
    }))
}

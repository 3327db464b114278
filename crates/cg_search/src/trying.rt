//! A search at one interval, and the result of several.
ghost use Rattle.std.specs.Prelude.{◌≤◌, IfOk};
ghost use Rattle.cg_model.specs.Limits.{most_moves};
ghost use Rattle.cg_intervals.specs.Intervals.{last_tried};
ghost use Rattle.cg_search.specs.Course.{IsPosed, IsSearched};

use crate::misses::Miss;
use crate::plan::long;
use cg_arch::Arch;
use cg_diagnostics::Aside;
use cg_intervals::LegalMapping;
use cg_model::{Kernel, Request};
use cg_place::Task;
use cg_search_respond::{Effort, Responded, Wiring, respond};
use std::alloc::{AllocError, Global};

/// The data that the searches of a call share.
#[derive(Clone, Copy)]
pub(crate) struct Call<'a, 'w> {
    /// The architecture.
    pub(crate) arch: &'a Arch,
    /// The kernel.
    pub(crate) kernel: &'a Kernel,
    /// The architecture as a search reads it.
    pub(crate) wiring: &'w Wiring,
    /// The request.
    pub(crate) request: Request,
    /// The first interval that is tried.
    pub(crate) first: u32,
}

/// A mapping that was found.
#[derive(Drop)]
pub(crate) struct Found<'a> {
    /// The mapping.
    pub(crate) mapping: LegalMapping<'a>,
    /// The moves of the search that found it.
    pub(crate) moves: u32,
}

/// The result of the intervals that are tried.
#[derive(Drop)]
pub(crate) enum Outcome<'a> {
    /// A mapping.
    Found(Found<'a>),
    /// No mapping, and what is left at each interval, from the first one on.
    Left(Vec<Miss>),
}

/// Makes a long search at the interval `ii` of `call`. `aside` takes the progress.
pub(crate) fn search_long<'a>(
    alloc: Global,
    call: &Call<'a, '_>,
    ii: u32,
    aside: &mut dyn Aside,
) -> Result<Responded<'a>, AllocError>
    requires posed { IsPosed call.now.arch.now call.now.kernel.now call.now.request.ii call.now.first }
    requires few { call.now.request.moves ≤ most_moves }
    requires from { call.now.first ≤ ii }
    requires to { ii ≤ last_tried call.now.arch.now call.now.request.ii }
    ensures { IfOk result (IsSearched call.now.arch.now call.now.kernel.now call.now.request.ii call.now.request.moves call.now.first ii) }
{
    search_at(
        alloc,
        call,
        ii,
        long(call.arch, call.kernel, call.request, ii),
        aside,
    )
}

/// Searches at the interval `ii` of `call`, with `effort`. `aside` takes the progress.
pub(crate) fn search_at<'a>(
    alloc: Global,
    call: &Call<'a, '_>,
    ii: u32,
    effort: Effort,
    aside: &mut dyn Aside,
) -> Result<Responded<'a>, AllocError>
    requires posed { IsPosed call.now.arch.now call.now.kernel.now call.now.request.ii call.now.first }
    requires few { call.now.request.moves ≤ most_moves }
    requires from { call.now.first ≤ ii }
    requires to { ii ≤ last_tried call.now.arch.now call.now.request.ii }
    requires within { effort.moves ≤ call.now.request.moves }
    ensures { IfOk result (IsSearched call.now.arch.now call.now.kernel.now call.now.request.ii call.now.request.moves call.now.first ii) }
{
    call.arch.contexts();
    let task = Task::new(alloc, call.arch, call.kernel, ii)?;
    let responded = respond(alloc, &task, call.wiring, effort, aside)?;
    if let Responded::Mapped(mapping, _) = &responded {
        mapping.mapping();
    }
    Ok(responded)
}

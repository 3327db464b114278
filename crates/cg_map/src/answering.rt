//! The answer: why an interval is impossible, the first mapping, or the costs that are left.
ghost use Rattle.std.specs.Prelude.{◌≡◌, ◌≤◌, IfOk};
ghost use Rattle.cg_model.specs.Limits.{most_moves};
ghost use Rattle.cg_bound.specs.Bound.{IsOpen};
ghost use Rattle.cg_intervals.specs.Intervals as spec;
ghost use Rattle.cg_intervals.specs.Intervals.{IsAsked, IsFirst};
ghost use Rattle.cg_map.specs.Tried.{IsAnswer, IsTried};

use crate::trying::{Attempt, try_task};
use cg_arch::Arch;
use cg_bound::{IntervalVerdict, verdict};
use cg_diagnostics::Aside;
use cg_intervals::{Answer, first_tried, last_tried};
use cg_model::{Kernel, Request};
use cg_place::Task;
use std::alloc::{AllocError, Global};

/// The costs that are left at the intervals that were tried.
#[derive(Drop)]
pub struct Costs {
    /// The first interval, in cycles.
    pub first: u32,
    /// The cost at each interval from the first one on.
    pub costs: Vec<u64>,
}

/// Searches a mapping of `kernel` on `arch`, at the interval that `request` asks for, or at each interval from the
/// least one that no bound forbids up to the number of the architecture's contexts. `aside` takes the progress.
pub fn map_answer<'a>(
    alloc: Global,
    arch: &'a Arch,
    kernel: &'a Kernel,
    request: Request,
    aside: &mut dyn Aside,
) -> Result<Answer<'a, Costs>, AllocError>
    requires within { IsAsked arch.now request.ii }
    requires few { request.moves ≤ most_moves }
    ensures { IfOk result (IsAnswer arch.now kernel.now request.ii request.seed request.moves) }
{
    match verdict(alloc, arch, kernel, last_tried(arch, request.ii))? {
        IntervalVerdict::Impossible(certificate) => Ok(Answer::Impossible(certificate)),
        IntervalVerdict::Allowed => {
            let first = first_tried(alloc, arch, kernel, request.ii)?;
            tried(alloc, arch, kernel, first, request, aside)
        }
    }
}

/// Tries the intervals from `first` to the last one. `aside` takes the progress.
fn tried<'a>(
    alloc: Global,
    arch: &'a Arch,
    kernel: &'a Kernel,
    first: u32,
    request: Request,
    aside: &mut dyn Aside,
) -> Result<Answer<'a, Costs>, AllocError>
    requires within { IsAsked arch.now request.ii }
    requires few { request.moves ≤ most_moves }
    requires first { IsFirst arch.now kernel.now request.ii first }
    requires free { IsOpen arch.now kernel.now (spec.last_tried arch.now request.ii) }
    ensures { IfOk result (IsTried arch.now kernel.now request.ii request.seed request.moves first) }
{
    arch.contexts();
    let mut costs = Vec::new(alloc);
    for ii in first..last_tried(arch, request.ii) + 1 {
        let task = Task::new(alloc, arch, kernel, ii)?;
        match try_task(alloc, &task, request, aside)? {
            Attempt::Mapped(mapping, found_by) => return Ok(Answer::Mapped(mapping, found_by)),
            Attempt::Left(cost) => costs.push(cost)?,
        }
    }
    Ok(Answer::Unmapped(Costs { first, costs }))
}

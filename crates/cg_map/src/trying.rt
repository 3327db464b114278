//! The attempt at an interval.
ghost use Rattle.std.specs.Prelude.{◌≤◌, IfOk};
ghost use Rattle.cg_model.specs.Limits.{most_moves};
ghost use Rattle.cg_map.specs.Tried.{IsAttempt};

use cg_anneal::{Found, search};
use cg_check::LegalMapping;
use cg_diagnostics::Aside;
use cg_hub::{hub_enough, hub_mapping};
use cg_intervals::FoundBy;
use cg_model::Request;
use cg_place::Task;
use std::alloc::{AllocError, Global};

/// The result of an attempt at an interval.
#[derive(Drop)]
pub enum Attempt<'a> {
    /// A legal mapping.
    Mapped(LegalMapping<'a>, FoundBy),
    /// No mapping: the cost at which the walk ends.
    Left(u64),
}

/// Tries the interval of `task`: the hub where it suffices, else the walk with the seed of `request` and at most its
/// number of moves. `aside` takes the progress.
pub fn try_task<'a>(
    alloc: Global,
    task: &Task<'a>,
    request: Request,
    aside: &mut dyn Aside,
) -> Result<Attempt<'a>, AllocError>
    requires few { request.moves ≤ most_moves }
    ensures { IfOk result (IsAttempt task.now.arch task.now.kernel request.seed request.moves task.now.ii) }
{
    let ii = task.interval();
    if hub_enough(task.arch(), task.kernel(), ii) {
        let mapping = hub_mapping(alloc, task.arch(), task.kernel(), ii)?;
        return Ok(Attempt::Mapped(mapping, FoundBy::Hub));
    }
    match search(alloc, task, request, aside)? {
        Found::Mapped(mapping, count) => Ok(Attempt::Mapped(mapping, FoundBy::Moves(count))),
        Found::Spent(cost) => Ok(Attempt::Left(cost)),
    }
}

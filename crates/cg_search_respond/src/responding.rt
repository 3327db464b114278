//! The search for a mapping at an interval.
ghost use Rattle.std.specs.Prelude.{◌≤◌, IfOk};
ghost use Rattle.cg_model.specs.Limits.{most_moves};
ghost use Rattle.cg_search_respond.specs.Responded.{IsResponded, IsJudged};

use crate::counting::mapping_faults;
use crate::effort::Effort;
use crate::mapping::mapping;
use crate::pace::{Ending, Pace};
use crate::search::Search;
use crate::snapshot::Snapshot;
use cg_check::{CheckVerdict, LegalMapping, check};
use cg_diagnostics::Aside;
use cg_model::Mapping;
use cg_place::Task;
use cg_search_costs::Wiring;
use cg_search_problem::Problem;
use std::alloc::{AllocError, Global};

/// How a search ends.
#[derive(Drop)]
pub enum Responded<'a> {
    /// At a legal mapping, after that number of best responses.
    Mapped(LegalMapping<'a>, u32),
    /// With faults left, after all moves or given up.
    Spent {
        /// The number of faults of the mapping.
        faults: u32,
        /// The mapping of the first state with the least number of faults.
        mapping: Mapping,
    },
}

/// Searches a mapping of `task` on the array of `wiring`, with `effort`. `aside` takes the progress.
pub fn respond<'a>(
    alloc: Global,
    task: &Task<'a>,
    wiring: &Wiring,
    effort: Effort,
    aside: &mut dyn Aside,
) -> Result<Responded<'a>, AllocError>
    requires few { effort.moves ≤ most_moves }
    ensures { IfOk result (IsResponded task.now.arch task.now.kernel task.now.ii effort.moves) }
{
    let problem = Problem::new(alloc, task, wiring)?;
    let responded = attempts(alloc, task, &problem, effort, aside)?;
    Ok(responded)
}

/// Makes one attempt after another until one ends at a mapping or the search is over. `aside` takes the progress.
fn attempts<'a>(
    alloc: Global,
    task: &Task<'a>,
    problem: &Problem,
    effort: Effort,
    aside: &mut dyn Aside,
) -> Result<Responded<'a>, AllocError>
    requires few { effort.moves ≤ most_moves }
    ensures { IfOk result (IsResponded task.now.arch task.now.kernel task.now.ii effort.moves) }
{
    let mut search = Search::new(alloc, problem, effort)?;
    for number in 0..effort.moves + 1 {
        let ending = search.attempt(alloc, number, aside)?;
        if ending == Ending::Clean {
            match checked(alloc, task, &search.pace.best)? {
                CheckVerdict::Legal(legal) => {
                    return Ok(Responded::Mapped(legal, search.pace.made.min(effort.moves)));
                }
                CheckVerdict::Illegal { .. } => search.pace.least = 1,
            }
        }
        if ending == Ending::Over {
            break;
        }
    }
    ended(alloc, task, &search.pace, effort)
}

/// Returns the end of a search with `effort` that is over, by its best state.
fn ended<'a>(
    alloc: Global,
    task: &Task<'a>,
    pace: &Pace,
    effort: Effort,
) -> Result<Responded<'a>, AllocError>
    ensures { IfOk result (IsResponded task.now.arch task.now.kernel task.now.ii effort.moves) }
{
    match checked(alloc, task, &pace.best)? {
        CheckVerdict::Legal(legal) => Ok(Responded::Mapped(legal, pace.made.min(effort.moves))),
        CheckVerdict::Illegal { mapping, .. } => {
            task.holds();
            let faults = mapping_faults(alloc, task.arch(), task.kernel(), &mapping)?;
            Ok(Responded::Spent { faults, mapping })
        }
    }
}

/// Checks whether the mapping that `snapshot` represents is legal.
fn checked<'a>(
    alloc: Global,
    task: &Task<'a>,
    snapshot: &Snapshot,
) -> Result<CheckVerdict<'a>, AllocError>
    ensures { IfOk result (IsJudged task.now.arch task.now.kernel task.now.ii) }
{
    let arch = task.arch();
    let kernel = task.kernel();
    let made = mapping(alloc, kernel, task.interval(), snapshot)?;
    let verdict = check(alloc, arch, kernel, made)?;
    Ok(verdict)
}

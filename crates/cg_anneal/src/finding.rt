//! The search for a mapping at an interval.
ghost use Rattle.std.specs.Prelude.{◌≡◌, ◌≤◌, IfOk, OnOk};
ghost use Rattle.cg_model.specs.Limits.{most_moves};
ghost use Rattle.cg_walk_spec.specs.State.{cost};
ghost use Rattle.cg_walk_spec.specs.Walk.{IsStart, all_edges, unrouted_start};
ghost use Rattle.cg_anneal.specs.Ended.{IsFoundAt, IsReached, IsWalkedFrom, IsWalked};
ghost use Rattle.cg_anneal.specs.Walking.{IsRoutedBy};

use crate::counting::Counting;
use crate::moves::Pace;
use crate::progress::Costs;
use crate::walk::Walk;
use cg_check::LegalMapping;
use cg_diagnostics::Aside;
use cg_model::Request;
use cg_mrrg::Mrrg;
use cg_place::Task;
use rand_pcg::Lcg64Xsh32;
use std::alloc::{AllocError, Global};

/// How a walk ends.
#[derive(Drop)]
pub enum Found<'a> {
    /// With a legal mapping, after that number of moves.
    Mapped(LegalMapping<'a>, u32),
    /// With that cost, after all moves.
    Spent(u64),
}

/// The result of a walk's moves.
#[derive(Clone, Copy, Drop)]
pub(crate) enum Reached {
    /// A state of cost 0, after that number of moves.
    Zero(u32),
    /// That cost, after all moves.
    Cost(u64),
}

/// Makes the walk of `task` with the seed of `request` and at most its number of moves. `aside` takes the progress.
pub fn search<'a>(
    alloc: Global,
    task: &Task<'a>,
    request: Request,
    aside: &mut dyn Aside,
) -> Result<Found<'a>, AllocError>
    requires few { request.moves ≤ most_moves }
    ensures { IfOk result (IsWalked task.now.arch task.now.kernel task.now.ii request.seed request.moves) }
{
    search_by(alloc, Counting::Kept, task, request, aside)
}

/// Makes the walk of `task`, with the costs of states counted as `counting` says. `aside` takes the progress.
pub(crate) fn search_by<'a>(
    alloc: Global,
    counting: Counting,
    task: &Task<'a>,
    request: Request,
    aside: &mut dyn Aside,
) -> Result<Found<'a>, AllocError>
    requires few { request.moves ≤ most_moves }
    ensures { IfOk result (IsWalked task.now.arch task.now.kernel task.now.ii request.seed request.moves) }
{
    task.holds();
    let graph = Mrrg::expand(alloc, task.arch(), task.interval())?;
    let found = walk_over(alloc, counting, &graph, task, request, aside)?;
    Ok(found)
}

/// Makes the walk of `task` over `graph`, its modulo routing resource graph. `aside` takes the progress.
fn walk_over<'g, 'a>(
    alloc: Global,
    counting: Counting,
    graph: &'g Mrrg<'a>,
    task: &Task<'a>,
    request: Request,
    aside: &mut dyn Aside,
) -> Result<Found<'a>, AllocError>
    requires graph { graph.now ≡ record { arch = task.now.arch; interval = task.now.ii } }
    requires few { request.moves ≤ most_moves }
    ensures { IfOk result (IsWalkedFrom task.now.arch task.now.kernel task.now.ii task.now.early request.seed request.moves) }
{
    let mut walk = begin(alloc, graph, task)?;
    end_of(alloc, counting, &mut walk, request, aside)
}

/// Makes the moves of `walk` from its start on, and returns how it ends. `aside` takes the progress.
fn end_of<'g, 'a>(
    alloc: Global,
    counting: Counting,
    walk: &mut Walk<'g, 'a>,
    request: Request,
    aside: &mut dyn Aside,
) -> Result<Found<'a>, AllocError>
    requires few { request.moves ≤ most_moves }
    requires start { IsStart walk.old.arch walk.old.kernel walk.old.ii walk.old.early walk.old.state }
    ensures { IfOk result (IsWalkedFrom walk.old.arch walk.old.kernel walk.old.ii walk.old.early request.seed request.moves) }
{
    match make_moves(alloc, counting, walk, request, aside)? {
        Reached::Zero(k) => {
            let end = legal_end(alloc, walk, k)?;
            Ok(end)
        }
        Reached::Cost(cost) => Ok(Found::Spent(cost)),
    }
}

/// Returns the walk of `task` over `graph` at its start, with all edge operands routed for which a path is found.
fn begin<'g, 'a>(
    alloc: Global,
    graph: &'g Mrrg<'a>,
    task: &Task<'a>,
) -> Result<Walk<'g, 'a>, AllocError>
    requires graph { graph.now ≡ record { arch = task.now.arch; interval = task.now.ii } }
    ensures same { IfOk result (λ w. w ≡ record { arch = task.now.arch; kernel = task.now.kernel; ii = task.now.ii; early = task.now.early; state = w.state }) }
    ensures start { IfOk result (λ w. IsStart task.now.arch task.now.kernel task.now.ii task.now.early w.state) }
{
    let mut walk = Walk::start(alloc, graph, task)?;
    route_first(alloc, &mut walk)?;
    Ok(walk)
}

/// Routes all edge operands of `walk` at its start.
fn route_first(alloc: Global, walk: &mut Walk) -> Result<(), AllocError>
    requires { walk.old.state ≡ unrouted_start walk.old.arch walk.old.kernel walk.old.ii walk.old.early }
    ensures { OnOk result (IsRoutedBy (all_edges walk.old.kernel) walk.old walk.new) }
{
    let list = walk.all(alloc)?;
    walk.route_all(alloc, &list)
}

/// Makes moves until a state of `walk` has cost 0, or else all moves of `request`. `aside` takes the progress.
fn make_moves(
    alloc: Global,
    counting: Counting,
    walk: &mut Walk,
    request: Request,
    aside: &mut dyn Aside,
) -> Result<Reached, AllocError>
    requires few { request.moves ≤ most_moves }
    requires start { IsStart walk.old.arch walk.old.kernel walk.old.ii walk.old.early walk.old.state }
    ensures { IfOk result (IsReached walk.old request.seed request.moves walk.new) }
{
    walk.holds();
    let moves = request.moves;
    let ii = walk.interval();
    let mut generator = Lcg64Xsh32::new(request.seed, u64::from(ii));
    let mut costs = Costs::new(ii);
    for k in 0..moves {
        walk.holds();
        let cost = walk.cost_by(alloc, counting)?;
        if cost == 0 {
            return Ok(Reached::Zero(k));
        }
        costs.meet(k, cost, aside);
        let pace = Pace { counting, moves, k };
        walk.step(alloc, pace, &mut generator)?;
    }
    let left = walk.cost_by(alloc, counting)?;
    if left == 0 {
        return Ok(Reached::Zero(moves));
    }
    Ok(Reached::Cost(left))
}

/// Takes the legal mapping out of `walk`, whose state has cost 0 after `k` moves.
fn legal_end<'g, 'a>(
    alloc: Global,
    walk: &mut Walk<'g, 'a>,
    k: u32,
) -> Result<Found<'a>, AllocError>
    requires zero { cost walk.old.arch walk.old.kernel walk.old.ii walk.old.state ≡ 0 }
    ensures { IfOk result (IsFoundAt walk.old.arch walk.old.kernel walk.old.ii walk.old.state k) }
{
    walk.holds();
    let arch = walk.arch();
    let kernel = walk.kernel();
    let mapping = walk.take_mapping(alloc)?;
    Ok(Found::Mapped(LegalMapping::new(arch, kernel, mapping), k))
}

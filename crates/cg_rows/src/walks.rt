//! Walks that search for a mapping: their ends where they make no move, and the comparison with the plain walk where
//! they do.
ghost use Rattle.std.specs.Prelude.{◌≡◌, ◌≤◌};
ghost use Rattle.cg_model.specs.Limits.{most_moves};

use cg_anneal::laws::plain_search;
use cg_anneal::{Found, search};
use cg_arch::Arch;
use cg_check::LegalMapping;
use cg_diagnostics::Silent;
use cg_model::{Kernel, Mapping, Place, Request, Route};
use cg_place::{Task, is_offered};
use cg_recur::{Recur, recurrence};
use std::alloc::{AllocError, Global};

/// The ends of the walk and of the plain walk, if they could be made.
#[derive(Drop)]
struct Ends<'a> {
    found: Found<'a>,
    plain: Found<'a>,
}

/// Returns a request for the interval `ii`, with the seed `seed` and `moves` moves.
fn request_of(ii: u32, seed: u64, moves: u32) -> Request
    ensures { result.moves ≡ moves }
{
    Request {
        ii: Some(ii),
        seed,
        moves,
    }
}

/// Makes both walks at the interval in `request`; None where they can't be made.
fn walked<'a>(
    alloc: Global,
    arch: &'a Arch,
    kernel: &'a Kernel,
    request: Request,
) -> Result<Option<Ends<'a>>, AllocError>
    requires { request.moves ≤ most_moves }
{
    let ii = request.ii.unwrap_or(0);
    if ii == 0 || ii > arch.contexts() || !is_offered(arch, kernel) {
        return Ok(None);
    }
    match recurrence(alloc, arch, kernel, ii)? {
        Recur::Cycle(_) => Ok(None),
        Recur::Times(_) => {
            let task = Task::new(alloc, arch, kernel, ii)?;
            Ok(Some(Ends {
                found: search(alloc, &task, request, &mut Silent)?,
                plain: plain_search(alloc, &task, request)?,
            }))
        }
    }
}

/// Checks whether two routes are equal.
fn is_same_route(a: &Route, b: &Route) -> bool {
    a.node == b.node && a.arg == b.arg && a.path.as_slice() == b.path.as_slice()
}

/// Checks whether two mappings are equal.
fn is_same_mapping(a: &Mapping, b: &Mapping) -> bool {
    let routes = b.routes();
    a.ii() == b.ii()
        && a.places() == b.places()
        && a.routes().len() == routes.len()
        && a.routes()
            .iter()
            .zip(routes)
            .all(|(r, s)| is_same_route(r, s))
}

/// Checks whether both walks ended alike.
fn are_alike(ends: &Ends) -> bool {
    match (&ends.found, &ends.plain) {
        (Found::Mapped(a, j), Found::Mapped(b, k)) => {
            j == k && is_same_mapping(a.mapping(), b.mapping())
        }
        (Found::Spent(c), Found::Spent(d)) => c == d,
        _ => false,
    }
}

/// Makes both walks with `moves` moves from `seed` at the interval `ii`, and checks whether they end alike. Returns
/// false where they can't be made.
pub(crate) fn end_alike(
    alloc: Global,
    arch: &Arch,
    kernel: &Kernel,
    ii: u32,
    seed: u64,
    moves: u32,
) -> Result<bool, AllocError>
    requires { moves ≤ most_moves }
{
    match walked(alloc, arch, kernel, request_of(ii, seed, moves))? {
        None => Ok(false),
        Some(ends) => Ok(are_alike(&ends)),
    }
}

/// Checks whether `place` is on the only unit, at `time`.
fn is_at(place: Option<&Place>, time: u32) -> bool {
    match place {
        None => false,
        Some(place) => place.unit == 0 && place.time == time,
    }
}

/// Checks whether `route` goes to operand `arg` of `node`, along `path`.
fn is_route(route: Option<&Route>, node: u32, arg: u32, path: &[u32]) -> bool {
    match route {
        None => false,
        Some(route) => route.node == node && route.arg == arg && route.path.as_slice() == path,
    }
}

/// Checks whether `legal` is the running sum's first mapping: one node after another, and the sum of the previous
/// iteration in the register.
fn is_first_sum(legal: &LegalMapping) -> bool {
    let mapping = legal.mapping();
    let places = mapping.places();
    let routes = mapping.routes();
    mapping.ii() == 3
        && places.len() == 3
        && is_at(places.first(), 0)
        && is_at(places.get(1), 1)
        && is_at(places.get(2), 2)
        && routes.len() == 3
        && is_route(routes.first(), 1, 0, &[3, 0, 0, 1])
        && is_route(routes.get(1), 1, 1, &[3, 2])
        && is_route(routes.get(2), 2, 0, &[3, 1])
}

/// Checks whether the running sum at interval 3 is mapped at its start.
pub(crate) fn maps_sum(alloc: Global, arch: &Arch, kernel: &Kernel) -> Result<bool, AllocError> {
    match walked(alloc, arch, kernel, request_of(3, 7, 0))? {
        None => Ok(false),
        Some(ends) => {
            let first = match &ends.found {
                Found::Mapped(legal, moves) => *moves == 0 && is_first_sum(legal),
                Found::Spent(_) => false,
            };
            Ok(first && are_alike(&ends))
        }
    }
}

/// Checks whether two nodes that begin in one slot of one unit are left there where no move is made.
pub(crate) fn leaves_two_in_a_slot(
    alloc: Global,
    arch: &Arch,
    kernel: &Kernel,
) -> Result<bool, AllocError> {
    match walked(alloc, arch, kernel, request_of(2, 1, 0))? {
        None => Ok(false),
        Some(ends) => {
            let left = match &ends.found {
                Found::Mapped(_, _) => false,
                Found::Spent(cost) => *cost == 1000,
            };
            Ok(left && are_alike(&ends))
        }
    }
}

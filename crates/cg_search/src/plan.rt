//! The effort of a search at an interval, and its random numbers.
ghost use Rattle.std.specs.Prelude.{◌≤◌};

use cg_arch::Arch;
use cg_model::{Kernel, Request};
use cg_search_respond::Effort;

/// The number by which the moves of the request are divided for a probe.
const PROBE_SHARE: u32 = 120;

/// The number of resources of the greatest array on which a long search has all moves.
const RESOURCES: u64 = 270;

/// The greatest number of moves of a long search for each node.
const MOVES_A_NODE: u32 = 10_000;

/// The number that is added to the interval for the stream of a long search.
const LONG_STREAM: u64 = 65_536;

/// Returns the effort of a probe at the interval `ii`, by `request`.
pub(crate) fn probe(request: Request, ii: u32) -> Effort
    ensures { result.moves ≤ request.moves }
{
    Effort {
        seed: request.seed,
        stream: u64::from(ii),
        moves: request.moves / PROBE_SHARE,
        full: 0,
    }
}

/// Returns the effort of a long search of `kernel` on `arch` at the interval `ii`, by `request`.
pub(crate) fn long(arch: &Arch, kernel: &Kernel, request: Request, ii: u32) -> Effort
    ensures { result.moves ≤ request.moves }
{
    let full = full_moves(arch.resources().len(), request.moves);
    let nodes = kernel.nodes().len() as u32;
    Effort {
        seed: request.seed,
        stream: u64::from(ii) + LONG_STREAM,
        moves: full.min(nodes.saturating_mul(MOVES_A_NODE)),
        full: u64::from(full),
    }
}

/// Returns the moves of a full long search on an array with that number of `resources`, where `moves` are asked for: on
/// a large array a move takes longer, and there are fewer moves.
fn full_moves(resources: usize, moves: u32) -> u32
    ensures { result ≤ moves }
{
    let fewer = u64::from(moves) * RESOURCES / RESOURCES.max(resources as u64);
    fewer.min(u64::from(moves)) as u32
}

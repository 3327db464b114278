//! Rounds over all edges, until no time rises or a chain closes.
ghost use Rattle.std.specs.Prelude.{◌^◌, ◌<◌, IfOk};
ghost use Rattle.cg_recur.specs.Log.{IsWithin, IsMade};
ghost use Rattle.cg_recur.specs.Numbered.{IsNumbered};

use crate::Edge;
use crate::closed::cycle;
use crate::moments::{Outcome, Step, begin, numbers, relax, times};
use std::alloc::{AllocError, Global};

/// The result of the rounds.
#[derive(Drop)]
pub(crate) struct Rounds {
    /// The log.
    pub(crate) log: Vec<Step>,
    /// The latest moment of each node.
    pub(crate) last: Vec<usize>,
    /// Whether the last moment comes by a chain whose number of edges is the number of nodes.
    pub(crate) is_deep: bool,
}

/// The longest chains of edges, or a closed chain that makes them infinite.
#[derive(Drop)]
pub enum Numbered {
    /// The edges of a closed chain that is too long for the interval, by number.
    Cycle(Vec<usize>),
    /// The earliest time of each node.
    Times(Vec<u32>),
}

/// Returns the earliest times of the nodes, or a closed chain of `edges` that is too long for the interval `ii`, if
/// there is one.
pub fn longest_chains(
    alloc: Global,
    edges: &[Edge],
    nodes: usize,
    ii: u32,
) -> Result<Numbered, AllocError>
    requires within { IsWithin edges.now nodes }
    requires small { nodes < 2 ^ 16 }
    ensures { IfOk result (λ r. IsNumbered edges.now nodes ii r) }
{
    let made = make_rounds(alloc, edges, nodes, ii)?;
    let log = made.log.as_slice();
    let last = made.last.as_slice();
    if made.is_deep {
        let numbers = cycle(alloc, log, edges, last, ii)?;
        return Ok(Numbered::Cycle(numbers));
    }
    let early = times(alloc, log, last, edges, ii)?;
    Ok(Numbered::Times(early))
}

/// Makes one round over `edges` for each node, but ends early if no time rises in a round, or a chain is too long.
pub(crate) fn make_rounds(
    alloc: Global,
    edges: &[Edge],
    nodes: usize,
    ii: u32,
) -> Result<Rounds, AllocError>
    requires within { IsWithin edges.now nodes }
    requires small { nodes < 2 ^ 16 }
    ensures { IfOk result (λ r. IsMade edges.now ii nodes r.log.items r.last.items r.is_deep) }
{
    let mut log = begin(alloc, nodes)?;
    let mut last = numbers(alloc, nodes)?;
    for r in 0..nodes {
        let mut quiet = true;
        for e in 0..edges.len() {
            match relax(&mut log, &mut last, edges, e, nodes, ii)? {
                Outcome::Same => {}
                Outcome::Raised => quiet = false,
                Outcome::Deep => {
                    return Ok(Rounds {
                        log,
                        last,
                        is_deep: true,
                    });
                }
            }
        }
        if quiet {
            return Ok(Rounds {
                log,
                last,
                is_deep: false,
            });
        }
    }
    Ok(Rounds {
        log,
        last,
        is_deep: false,
    })
}

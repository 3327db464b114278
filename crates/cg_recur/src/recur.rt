//! The bound by recurrences of a kernel on an architecture.
ghost use Rattle.std.specs.Prelude.{◌≡◌, ℕ, ◌<◌, IfOk, length, map, slice_index};
ghost use Rattle.cg_recur.specs.Recurrences.{IsAnswer, HasNoRecurrence, AreEarliest, name_at};

use crate::moments::times;
use crate::rounds::{Numbered, longest_chains, make_rounds};
use crate::{EdgeId, edges_of, latencies_are_small};
use cg_arch::Arch;
use cg_model::Kernel;
use std::alloc::{AllocError, Global};

/// The answer of the recurrences of a kernel for an interval.
#[derive(Drop)]
pub enum Recur {
    /// The edges of a closed chain that is too long for the interval. It meets no node twice, and
    /// begins at its least-numbered node.
    Cycle(Vec<EdgeId>),
    /// The earliest time of each node, in cycles, if no closed chain is too long.
    Times(Vec<u32>),
}

/// Returns a closed chain of edges whose latencies exceed the interval `ii` times its distances, if there is one, and
/// else the earliest times of the nodes, in cycles.
pub fn recurrence(alloc: Global, arch: &Arch, kernel: &Kernel, ii: u32) -> Result<Recur, AllocError>
    ensures { IfOk result (λ r. IsAnswer arch.now kernel.now ii r) }
{
    latencies_are_small(arch);
    let list = edges_of(alloc, arch, kernel)?;
    let nodes = kernel.nodes().len();
    match longest_chains(alloc, &list.edges, nodes, ii)? {
        Numbered::Cycle(numbers) => Ok(Recur::Cycle(name_all(alloc, &list.names, &numbers)?)),
        Numbered::Times(times) => Ok(Recur::Times(times)),
    }
}

/// Returns the earliest times of the nodes, in cycles, at an interval `ii` for which no closed
/// chain of edges is too long.
pub fn earliest_times(
    alloc: Global,
    arch: &Arch,
    kernel: &Kernel,
    ii: u32,
) -> Result<Vec<u32>, AllocError>
    requires { HasNoRecurrence arch.now kernel.now ii }
    ensures { IfOk result (λ v. AreEarliest arch.now kernel.now ii v.items) }
{
    latencies_are_small(arch);
    let list = edges_of(alloc, arch, kernel)?;
    let nodes = kernel.nodes().len();
    let edges = list.edges.as_slice();
    let made = make_rounds(alloc, edges, nodes, ii)?;
    let log = made.log.as_slice();
    let last = made.last.as_slice();
    let early = times(alloc, log, last, edges, ii)?;
    Ok(early)
}

/// Returns the names of the edges whose numbers are `numbers`.
pub fn name_all(
    alloc: Global,
    names: &[EdgeId],
    numbers: &[usize],
) -> Result<Vec<EdgeId>, AllocError>
    requires { (i : ℕ) → i < length numbers.now → slice_index numbers.now i < length names.now }
    ensures { IfOk result (λ ids. ids.items ≡ map (name_at names.now) numbers.now) }
{
    let mut ids = Vec::new(alloc);
    for number in numbers {
        ids.push(names[*number])?;
    }
    Ok(ids)
}

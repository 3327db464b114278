//! The first places, and places from random words.
ghost use Rattle.std.specs.Prelude.{◌≡◌, ◌<◌, ◌≤◌, ◌↔◌, ◌+◌, ◌*◌, IsTrue, IfOk, slice_index};
ghost use Rattle.cg_model.specs.Kernel.{IsKernel, size};
ghost use Rattle.cg_model.specs.Limits.{most_contexts};
ghost use Rattle.cg_place.specs.Placed.{IsOffered, AreEarly, MayStand, first_places as first_of};
ghost use Rattle.cg_place.specs.Draws.{drawn_move};

use crate::draws::draw;
use crate::moves::Move;
use crate::offers::{count_offering, offering_unit};
use cg_arch::Arch;
use cg_model::{Kernel, LATEST_TIME, Place};
use std::alloc::{AllocError, Global};

/// Returns whether `early` has a time for each node, none too late for a mapping.
pub fn are_early(kernel: &Kernel, early: &[u32]) -> bool
    ensures { IsTrue result ↔ AreEarly kernel.now early.now }
{
    early.len() == kernel.nodes().len() && early.iter().all(|time| *time <= LATEST_TIME)
}

/// Returns the place of each node at its earliest time on the first unit that offers its operation.
pub(crate) fn first_places(
    alloc: Global,
    arch: &Arch,
    kernel: &Kernel,
    early: &[u32],
) -> Result<Vec<Place>, AllocError>
    requires offered { IsOffered arch.now kernel.now }
    requires early { AreEarly kernel.now early.now }
    ensures valid { IsKernel kernel.now }
    ensures value { IfOk result (λ p. p.items ≡ first_of arch.now kernel.now early.now) }
{
    let mut places = Vec::new(alloc);
    let nodes = kernel.nodes();
    for node in 0..nodes.len() {
        places.push(Place {
            unit: offering_unit(arch, nodes[node].op, 0),
            time: early[node],
        })?;
    }
    Ok(places)
}

/// Returns a move of a node to one of its units, at a time from its earliest on, from three random words.
pub(crate) fn drawn(
    arch: &Arch,
    kernel: &Kernel,
    ii: u32,
    early: &[u32],
    w1: u32,
    w2: u32,
    w3: u32,
) -> Move
    requires some { 0 < size kernel.now }
    requires few { ii ≤ most_contexts }
    requires offered { IsOffered arch.now kernel.now }
    requires early { AreEarly kernel.now early.now }
    ensures value { result ≡ drawn_move arch.now kernel.now ii early.now w1 w2 w3 }
    ensures stands { MayStand arch.now kernel.now result.node result.place.unit }
    ensures soon { result.place.time ≤ slice_index early.now result.node + 2 * ii + 7 }
{
    let nodes = kernel.nodes();
    let node = draw(nodes.len() as u32, w1);
    let op = nodes[node as usize].op;
    let unit = offering_unit(arch, op, draw(count_offering(arch, op), w2));
    let time = early[node as usize] + draw(2 * ii + 8, w3);
    Move {
        node,
        place: Place { unit, time },
    }
}

//! The plain placement.

use crate::laws::counts::unit_excess;
use crate::moves::Move;
use crate::places::{drawn, first_places};
use crate::touching::count_broken;
use cg_arch::Arch;
use cg_model::{Kernel, Place};
use std::alloc::{AllocError, Global};
use std::marker::Model;

/// A placement: the unit and the time at which each node of a kernel begins on an architecture, at an interval. It
/// keeps only the places, and counts at each query.
#[derive(Drop)]
pub struct PlainPlacement<'a> {
    arch: &'a Arch,
    kernel: &'a Kernel,
    ii: u32,
    early: Vec<u32>,
    places: Vec<Place>,
}

impl<'a> Model for PlainPlacement<'a> {
    ghost use Rattle.cg_place.specs.Placed.{Placed, IsPlacement};

    ghost Value = { Placed };

    ghost view = { λ p. record { arch = p.arch.now; kernel = p.kernel.now; ii = p.ii; early = p.early.items; places = p.places.items } };

    ghost invariant = { λ p. IsPlacement (record { arch = p.arch.now; kernel = p.kernel.now; ii = p.ii; early = p.early.items; places = p.places.items }) };
}

impl<'a> PlainPlacement<'a> {
    ghost use Rattle.std.specs.Prelude.{◌≡◌, ◌<◌, ◌≤◌, ◌+◌, ◌*◌, IfOk, slice_index};
    ghost use Rattle.cg_model.specs.Limits.{most_contexts};
    ghost use Rattle.cg_model.specs.Kernel.{size};
    ghost use Rattle.cg_place.specs.Placed.{IsOffered, AreEarly, IsPlacement, IsMove, after, back, first_places, place_in};
    ghost use Rattle.cg_place.specs.Counts as counts;
    ghost use Rattle.cg_place.specs.Draws.{drawn_move};

    /// Returns the placement of each node at its earliest time on the lowest-numbered unit that offers its operation.
    pub fn start(
        alloc: Global,
        arch: &'a Arch,
        kernel: &'a Kernel,
        ii: u32,
        early: &[u32],
    ) -> Result<PlainPlacement<'a>, AllocError>
        requires some { 0 < ii }
        requires few { ii ≤ most_contexts }
        requires offered { IsOffered arch.now kernel.now }
        requires early { AreEarly kernel.now early.now }
        ensures value { IfOk result (λ p. p ≡ record { arch = arch.now; kernel = kernel.now; ii = ii; early = early.now; places = first_places arch.now kernel.now early.now }) }
        ensures valid { IfOk result IsPlacement }
    {
        Ok(PlainPlacement {
            arch,
            kernel,
            ii,
            early: Vec::from_slice(alloc, early)?,
            places: first_places(alloc, arch, kernel, early)?,
        })
    }

    /// Returns a random move: a node, one of the units that offer its operation, and one of the times from its earliest
    /// on, from the random words `w1`, `w2` and `w3`.
    pub fn propose(&self, w1: u32, w2: u32, w3: u32) -> Move
        requires { 0 < size self.now.kernel }
        ensures value { result ≡ drawn_move self.now.arch self.now.kernel self.now.ii self.now.early w1 w2 w3 }
        ensures moves { IsMove self.now result }
        ensures soon { result.place.time ≤ slice_index self.now.early result.node + 2 * self.now.ii + 7 }
    {
        let early = self.early.as_slice();
        drawn(self.arch, self.kernel, self.ii, early, w1, w2, w3)
    }

    /// Applies the move `change`, and returns the move that undoes it.
    pub fn apply(&mut self, change: Move) -> Move
        requires { IsMove self.old change }
        ensures new { self.new ≡ after self.old change }
        ensures back { result ≡ back self.old.places change }
        ensures undoes { IsMove self.new result }
        ensures valid { IsPlacement self.new }
    {
        let from = self.places[change.node as usize];
        self.places[change.node as usize] = change.place;
        Move {
            node: change.node,
            place: from,
        }
    }

    /// Applies the move `change`, which undoes another.
    pub fn undo(&mut self, change: Move)
        requires { IsMove self.old change }
        ensures new { self.new ≡ after self.old change }
        ensures valid { IsPlacement self.new }
    {
        let _ = self.apply(change);
    }

    /// Returns the unit and the time at which `node` begins.
    pub fn place(&self, node: u32) -> Place
        requires { node < size self.now.kernel }
        ensures value { result ≡ place_in self.now.places node }
        ensures valid { IsPlacement self.now }
    {
        self.places[node as usize]
    }

    /// Returns the number of nodes beyond one in a slot of a unit, summed over all slots and units.
    pub fn unit_excess(&self) -> u32
        ensures value { result ≡ counts.unit_excess self.now.arch self.now.ii self.now.places }
        ensures valid { IsPlacement self.now }
    {
        unit_excess(self.arch, &self.places, self.ii)
    }

    /// Returns the number of order edges whose target doesn't begin at least a cycle after its source.
    pub fn order_violations(&self) -> u32
        ensures value { result ≡ counts.order_violations self.now.kernel self.now.ii self.now.places }
        ensures valid { IsPlacement self.now }
    {
        count_broken(self.kernel.order(), &self.places, self.ii)
    }
}

//! Moves of three nodes on two units, worked out by hand, in the placement and in the plain one that counts from
//! scratch.
//!
//! Only unit 1 multiplies. Over distance 0 y follows x and z follows y; over distance 1 x follows y, and z follows
//! itself.
ghost use Rattle.std.specs.Prelude.{◌≡◌, ◌<◌};
ghost use Rattle.cg_model.specs.Kernel.{size};
ghost use Rattle.cg_place.specs.Placed.{IsMove};

use cg_arch::Arch;
use cg_model::Kernel;
use cg_place::laws::PlainPlacement;
use cg_place::{Move, Place, Placement, are_early, is_offered};
use std::alloc::{AllocError, Global};

fn place(unit: u32, time: u32) -> Place {
    Place { unit, time }
}

fn at(node: u32, unit: u32, time: u32) -> Move {
    Move {
        node,
        place: place(unit, time),
    }
}

/// Checks whether both placements have the unit excess `excess` and the number of order violations `violations`.
fn count(kept: &Placement, plain: &PlainPlacement, excess: u32, violations: u32) -> bool {
    kept.unit_excess() == excess
        && plain.unit_excess() == excess
        && kept.order_violations() == violations
        && plain.order_violations() == violations
}

/// Makes the move given by the words `w1`, `w2` and `w3` in both placements, and returns it with the move that undoes
/// it.
fn step(kept: &mut Placement, plain: &mut PlainPlacement, w1: u32, w2: u32, w3: u32) -> (Move, Move)
    requires nodes { 0 < size kept.old.kernel }
    requires same { plain.old ≡ kept.old }
    ensures kernel { kept.new.kernel ≡ kept.old.kernel }
    ensures same { plain.new ≡ kept.new }
    ensures back { IsMove kept.new result.1 }
{
    let change = kept.propose(w1, w2, w3);
    let _ = plain.apply(change);
    (change, kept.apply(change))
}

/// Makes the move `change`, which undoes another, in both placements.
fn undo(kept: &mut Placement, plain: &mut PlainPlacement, change: Move)
    requires moves { IsMove kept.old change }
    requires same { plain.old ≡ kept.old }
    ensures kernel { kept.new.kernel ≡ kept.old.kernel }
    ensures same { plain.new ≡ kept.new }
{
    kept.undo(change);
    plain.undo(change);
}

/// Makes two moves, of which the first is undone, and checks whether each step is right.
fn are_right_steps(kept: &mut Placement, plain: &mut PlainPlacement) -> bool
    requires nodes { 0 < size kept.old.kernel }
    requires same { plain.old ≡ kept.old }
{
    // x is on unit 1 at 0; y and z are both on unit 0, at 0 and 2, in slot 0. y doesn't follow x.
    if kept.place(0) != place(1, 0) || !count(kept, plain, 1, 1) {
        return false;
    }
    // The last node, the last of its units, the last time.
    if kept.propose(u32::MAX, u32::MAX, u32::MAX) != at(2, 1, 13) {
        return false;
    }
    // Half of 3 nodes is 1, half of 2 units is 1, a third of 12 times is 4. y is with x in slot 0 of unit 1; it follows
    // x, but x doesn't follow y, nor does z.
    let (first, back) = step(kept, plain, 0x8000_0000, 0x8000_0000, 0x5555_5556);
    if first != at(1, 1, 4) || back != at(1, 0, 0) || !count(kept, plain, 1, 2) {
        return false;
    }
    undo(kept, plain, back);
    if !count(kept, plain, 1, 1) {
        return false;
    }
    // The last node on unit 0, a quarter of 12 times after its earliest: in slot 1, alone, and only the edge to y is
    // still violated.
    let (second, last) = step(kept, plain, u32::MAX, 0, 0x4000_0000);
    second == at(2, 0, 5) && last == at(2, 0, 2) && count(kept, plain, 0, 1)
}

/// Starts both placements at an interval of 2, with earliest times of 0, 0 and 2, and checks whether the moves are
/// right.
pub(crate) fn moves_of_three_nodes(
    alloc: Global,
    arch: &Arch,
    kernel: &Kernel,
) -> Result<bool, AllocError> {
    let early: &[u32] = &[0, 0, 2];
    if !is_offered(arch, kernel) || !are_early(kernel, early) || kernel.nodes().is_empty() {
        return Ok(false);
    }
    let mut kept = Placement::start(alloc, arch, kernel, 2, early)?;
    let mut plain = PlainPlacement::start(alloc, arch, kernel, 2, early)?;
    Ok(are_right_steps(&mut kept, &mut plain))
}

//! Companions of the placement that the walk uses: a plain one with the same contract, and laws of moves.
ghost use Rattle.cg_place.specs.Placed.{IsUndone};
ghost use Rattle.cg_place.specs.Schedules.{IsExcess, AreViolations};

mod counts;
mod plain;

pub use plain::PlainPlacement;

/// States that a move followed by the move that undoes it leaves every placement unchanged.
pub fn undone()
    ensures { IsUndone }
{}

/// States that both counts of a placement are 0 exactly if it is a schedule.
pub fn scheduled()
    ensures excess { IsExcess }
    ensures violations { AreViolations }
{}

//! The annealing walk that looks for a mapping: definitions of its states, its moves and its end, and the laws about
//! them.
//!
//! Every function here has an empty body. Its clauses are laws about the definitions: a crate that calls the function
//! can use them in its own proofs.
#![tactic(auto)]

ghost use Rattle.cg_walk_spec.specs.Laws.{IsLegalAtZero, IsLegalWhereFound, IsOneWalk, IsOneEnd, IsAlwaysEnded, IsGoodAllAlong, IsRouteMore, IsRouteLess, IsPlacedAlone, IsExcessByUses, IsAgedByUses, IsFoundByUses, IsCostByUses, AreEndsInRange, IsPathInRange, IsRoomEnough, AreHistoriesSmall, AreTimesSoon};

mod edge;

pub use edge::EdgeOperand;

/// States that a good state of cost 0 represents a legal mapping, on every valid architecture and for every valid
/// kernel. Every state of a walk that can begin is good, so a walk of this kind that comes to cost 0 has found a legal
/// mapping.
pub fn legal()
    ensures at_zero { IsLegalAtZero }
    ensures good { IsGoodAllAlong }
    ensures found { IsLegalWhereFound }
{}

/// States that there is one walk, as the number of moves determines the generator and the state, and that the walk has
/// one end.
pub fn one_walk()
    ensures walk { IsOneWalk }
    ensures end { IsOneEnd }
{}

/// States that a walk that can begin, on a valid architecture and for a valid kernel, comes to that end.
pub fn always_ends()
    ensures { IsAlwaysEnded }
{}

/// States that adding a route adds the positions of its path to those of a state, that removing a route removes them,
/// and that placing a node changes no position where no edge operand that touches the node has a route.
pub fn positions()
    ensures more { IsRouteMore }
    ensures less { IsRouteLess }
    ensures placed { IsPlacedAlone }
{}

/// States that the excess, the aged histories, the path that is found, and so the cost, depend only on how often each
/// claim is used: a table with a state's uses determines them, in whatever order the paths were added.
pub fn by_uses()
    ensures excess { IsExcessByUses }
    ensures aged { IsAgedByUses }
    ensures found { IsFoundByUses }
    ensures cost { IsCostByUses }
{}

/// States that the numbers of the walk's states are bounded: the ends of routes, the routes, all positions together,
/// the histories, and the earliest times.
pub fn ranges()
    ensures ends { AreEndsInRange }
    ensures path { IsPathInRange }
    ensures room { IsRoomEnough }
    ensures histories { AreHistoriesSmall }
    ensures early { AreTimesSoon }
{}

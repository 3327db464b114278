//! What is to be placed: a kernel on an architecture at an interval. And placements of its nodes: the start, the
//! proposals and the moves of a walk, with the two counts that measure how far a placement is from a schedule.
#![tactic(auto)]

mod draws;
pub mod laws;
mod moves;
mod offers;
mod placement;
mod places;
mod reservations;
mod task;
mod touching;

pub use cg_arch::Arch;
pub use cg_model::{Kernel, Place};
pub use moves::Move;
pub use offers::is_offered;
pub use placement::Placement;
pub use places::are_early;
pub use task::Task;

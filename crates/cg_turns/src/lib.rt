//! The sequential meaning of a kernel: its turns, one after the other.
#![tactic(auto)]

mod fault;
mod frame;
mod last;
mod pair;
mod turns;
mod watch;
mod window;

pub use cg_distance::{DistanceTable, min_distance};
pub use fault::TurnsFault;
pub use pair::{Access, UnorderedPair};
pub use turns::{TurnsDone, run_turns};

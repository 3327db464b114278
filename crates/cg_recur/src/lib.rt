//! The edges of a kernel on an architecture, with their names, latencies and distances; and the bound by recurrences:
//! closed chains of edges that are too long for an interval, and the earliest times if there is none.
#![tactic(auto)]

mod check;
mod closed;
mod edge;
mod find;
mod least;
mod list;
mod moments;
mod recur;
mod rounds;

pub use cg_arch::Arch;
pub use cg_model::Kernel;
pub use check::{check_cycle, source};
pub use edge::{Edge, EdgeId};
pub use find::find_edge;
pub use least::{latencies_are_small, latency};
pub use list::{KernelEdges, edges_of};
pub use recur::{Recur, earliest_times, name_all, recurrence};
pub use rounds::{Numbered, longest_chains};

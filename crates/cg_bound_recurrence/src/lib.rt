//! The bound by recurrences (Rau 1994) with the ways of values: closed chains of edges that are too long for an
//! interval when the least number of registers that each value crosses is added to the latencies.
#![tactic(auto)]

mod check;
mod find;
mod laws;

pub use cg_recur::{Arch, EdgeId, Kernel};
pub use check::{check_way_cycle, least_registers};
pub use find::find_way_cycle;
pub use laws::{always_decided, excludes, falls, plain};

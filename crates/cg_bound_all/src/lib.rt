//! Why no legal mapping of a kernel has an interval: recurrences, overfull sets of operations, ways that are missing or
//! too long, and too few registers; and the least interval that none of them excludes.
#![tactic(auto)]

mod bounds;
mod exclusion;
mod instances;
mod laws;
mod least;
mod numbers;
mod reach;
mod reason;
mod why;

pub use bounds::Bound;
pub use cg_recur::{Arch, EdgeId, Kernel};
pub use instances::Instance;
pub use laws::{always_decided, always_explained, excludes};
pub use least::{Least, find_exclusion};
pub use numbers::{HopTables, Numbers, find_hops};
pub use reason::{Kind, Reason};
pub use why::{Why, explain};

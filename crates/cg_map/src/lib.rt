//! The answer of a search for a mapping: the intervals that are tried, the result of each, and the first mapping.
#![tactic(auto)]

mod answering;
mod laws;
mod trying;

pub use answering::{Costs, map_answer};
pub use laws::{always_answered, complete_by_hub, one_answer};
pub use trying::{Attempt, try_task};

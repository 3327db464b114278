//! The least numbers of registers on the ways of a kernel's data edges through an architecture.
#![tactic(auto)]

mod alike;
mod answers;
mod laws;
mod missing;
mod question;
mod search;
mod table;
mod units;
mod ways;

pub use laws::{always_found, keeps_hops, kept, no_way};
pub use missing::{Missing, first_without_way};
pub use table::Ways;
pub use ways::find_ways;

//! The commands that search for a mapping, `map` and `search`, and what they share.
#![tactic(auto)]

mod finding;
mod mapping;
mod refusing;
mod reporting;
mod searching;
mod spending;
mod writing;

pub use mapping::map;
pub use searching::search;

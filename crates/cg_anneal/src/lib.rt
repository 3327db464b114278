//! The annealing walk that looks for a mapping: the code that makes it.
#![tactic(auto)]

mod chance;
mod counting;
mod edges;
mod ends;
mod finding;
pub mod laws;
mod mapping;
mod moves;
mod progress;
mod routing;
mod walk;

pub use finding::{Found, search};

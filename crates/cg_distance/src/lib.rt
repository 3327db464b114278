//! The order of a kernel's nodes by its edges: the least total distances of chains of edges.
#![tactic(auto)]

mod distance;
mod links;
mod reach;
mod totals;

pub use distance::{DistanceTable, min_distance};

//! Least paths in the modulo routing resource graph.
#![tactic(auto)]

mod least;
mod search;
mod step;

pub use cg_congestion::{MNode, Mrrg, Usage};
pub use least::least_path;

//! The modulo routing resource graph of an architecture.
#![tactic(auto)]

mod graph;
mod links;
mod lists;
mod registers;
mod users;

pub use cg_arch::Arch;
pub use graph::Mrrg;
pub use links::{Link, MNode};

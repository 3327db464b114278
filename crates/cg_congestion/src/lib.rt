//! Claims on the nodes of the modulo routing resource graph, and the cost of a link there.
#![tactic(auto)]

mod claim;
pub mod laws;
mod list;
mod usage;

pub use cg_mrrg::{Arch, MNode, Mrrg};
pub use claim::ClaimUse;
pub use usage::Usage;

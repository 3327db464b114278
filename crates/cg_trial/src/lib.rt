//! A trial: an architecture with a large hub, and a random kernel and an image for it, from a seed.
#![tactic(auto)]

mod draws;
mod hardware;
mod kernel;
pub mod laws;
mod trial;

pub use cg_arch::Arch;
pub use cg_model::Kernel;
pub use cg_pad::Image;
pub use trial::{TrialParts, trial_parts};

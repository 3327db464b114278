//! The mapping through a hub alone: when an architecture's hub suffices for a kernel at an interval, and the legal
//! mapping that then exists without any search.
#![tactic(auto)]

mod enough;
mod hosts;
pub mod laws;
mod mapping;
mod registers;
mod schedule;
mod way;

pub use cg_arch::Arch;
pub use cg_check::LegalMapping;
pub use cg_model::Kernel;
pub use enough::{hub_enough, serial};
pub use mapping::hub_mapping;

//! The search for a certificate of register pressure, or for times that show that there is none.
#![tactic(auto)]

mod chains;
mod extract;
mod find;
mod instances;
mod lift;
mod network;
mod push;
mod reach;
mod route;
mod settle;

pub use cg_bound_registers::{Arch, Kernel, Pressure, Times};
pub use find::{Outcome, find_pressure};
pub use network::{Link, Part};

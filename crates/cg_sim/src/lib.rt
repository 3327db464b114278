//! The array, cycle by cycle.
#![tactic(auto)]

pub mod laws;
mod plan;
mod settle;
mod sim;

pub use cg_datapath::{SimFault, sim_fault_text};
pub use sim::Sim;

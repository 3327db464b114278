//! A netlist run in place of the array, cycle by cycle. It runs over tables of the netlist: the order of its muxes, and
//! the net that each pin of a cell reads.
#![tactic(auto)]

mod build;
mod choices;
mod gates;
mod nets;
mod order;
mod run;
mod selects;
mod settle;
mod terminals;
mod wires;

pub use cg_datapath::{SimFault, sim_fault_text};
pub use cg_gates::{GateFault, gate_fault_text};
pub use gates::Gates;
pub use run::GateRun;

//! A run of the array that keeps the results of the last cycles, and no words of wires, ports and registers.
//!
//! Each operand is, by its slot, a fixed word or the result that one unit began a fixed number of cycles ago (`cg_origins`).
//! Where an operand is older than the rows that are kept, the whole run is left to the simulator of all resources.
#![tactic(auto)]

mod history;
mod replay;
mod running;

pub use running::run;

//! Which netlists have a meaning over an architecture, what this meaning is, and which fault a netlist without a
//! meaning has.
#![tactic(auto)]

mod after;
mod before;
mod counts;
mod fault;
mod firsts;
mod instances;
mod joined;
pub mod laws;
mod missing;
mod numbers;
mod pins;
mod tables;
mod texts;

pub use after::fault_after_loops;
pub use before::fault_before_loops;
pub use fault::GateFault;
pub use firsts::{cell_of_unit, drivers_of, unit_cells};
pub use instances::after_front;
pub use numbers::{HasName, number_or_all, numbers_of};
pub use pins::{after_first, data_of, driven_net, form_said, ins_of};
pub use tables::{Choice, Choices, SelectCell};
pub use texts::gate_fault_text;

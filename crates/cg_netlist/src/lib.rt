//! The netlist of an architecture, as structural Verilog.
#![tactic(auto)]

mod build;
mod cells;
mod forms;
mod graph;
mod operations;
mod parts;
mod pins;
mod print;
mod said;
mod written;

pub use build::netlist;
pub use cg_model::{Items, Name};
pub use forms::Form;
pub use graph::NetGraph;
pub use operations::bits_of;
pub use parts::{Cell, Net, Pin};
pub use print::verilog;
pub use said::{form_of, is_driver_port};

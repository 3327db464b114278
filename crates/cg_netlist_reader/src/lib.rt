//! Netlists from structural Verilog.
#![tactic(auto)]

mod fault;
mod forming;
mod joining;
mod port;
mod ports;
mod read;
mod taken;
mod texts;

pub use fault::VerilogFault;
pub use read::read_verilog;
pub use texts::verilog_fault_text;

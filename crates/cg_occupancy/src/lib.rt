//! The contents of each slot of a legal mapping: the node that each unit begins, and the value that each resource
//! carries.
#![tactic(auto)]

mod laws;
mod marks;
mod stay;
mod tables;
mod taken;

pub use laws::exact;
pub use marks::Marks;
pub use stay::Stay;

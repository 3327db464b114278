//! Where the operands of units come from.
//!
//! In a slot each resource takes its word from one place: from one driver, from nothing, or, as an out, from its unit. A
//! walk back from a port along these links ends, mostly after a few registers, at the out of a unit or where there is
//! nothing. So an operand is the result that one unit began a fixed number of cycles ago, or 0 in every cycle. A run that
//! keeps the results of the last cycles needs no words of wires, ports and registers.
#![tactic(auto)]

mod indexed;
mod linking;
mod source;
mod tasks;

pub use source::{MOST_DELAY, Source};
pub use tasks::{Task, Tasks, tasks_of};

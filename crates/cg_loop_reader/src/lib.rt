//! Reading loop bodies from their texts, and the faults in the uses that a text makes of names and ports.
#![tactic(auto)]

mod arrays;
mod assignments;
mod declarations;
mod expressions;
mod fault;
mod judging;
mod lines;
mod naming;
mod numbering;
mod ports;
mod read;
mod reader;
mod room;
mod texts;
mod uses;
mod words;

pub use cg_loop_syntax::{LoopBody, LoopFault};
pub use read::read_loop;
pub use texts::loop_fault_text;

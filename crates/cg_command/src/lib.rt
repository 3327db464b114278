//! The words of a command line: a command with the names of its files and its numbers; and commands with the contents of
//! their input files.
#![tactic(auto)]

mod arguments;
mod command;
mod filling;
mod numbers;
mod requests;
mod words;

pub use arguments::{Arguments, Given, arguments_of};
pub use cg_model::Request;
pub use command::{ArrayCall, Command, MapperCall, copies, inputs};
pub use filling::fill;
pub use numbers::{interval_of, moves_of, seed_of};
pub use words::plan_words;

//! The answers of all commands: from a command with the contents of its input files to an outcome, independent of any
//! store or sink.
#![tactic(auto)]

mod answering;
mod laws;

pub use answering::answer;
pub use laws::calls_compose;

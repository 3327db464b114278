//! Why a command ends before it has an answer: a file is refused, by the fault that its reader found, or memory runs
//! out. A fault stays a value until the outcome is made.
#![tactic(auto)]

mod cause;
mod stop;

pub use cause::Cause;
pub use stop::{Stop, conclude};

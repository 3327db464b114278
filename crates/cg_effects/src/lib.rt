//! How the call of a command begins and ends: reading its inputs, then writing its files and its report.
#![tactic(auto)]

mod finishing;
mod outcome;
mod read;
mod refusals;

pub use finishing::finish;
pub use outcome::{File, Outcome, Status};
pub use read::{READ_LIMIT, Unread, read_all};
pub use refusals::{malformed, usage};

//! The bound by classes of units: the nodes with operations of a set, against the units that offer one of them.
#![tactic(auto)]

mod class;
mod counts;
mod search;

pub use class::{Assignment, assign, check_class};

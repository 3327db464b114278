//! The problem of a search by best responses, apart from its state: the kernel as lists of edges, the array as the
//! search reads it, the ideal times of nodes, and the places of nodes.
#![tactic(auto)]

mod group;
mod hosts;
mod late;
mod lists;
mod places;
mod problem;
mod times;

pub use group::{Group, Tightness};
pub use hosts::Host;
pub use lists::{Lists, count, number_at, raise};
pub use places::{Places, shifted};
pub use problem::{DataEdge, Problem, slot};
pub use times::longest_stays;

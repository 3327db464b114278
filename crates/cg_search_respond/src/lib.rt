//! A mapper by best responses. Each node is placed on a unit at a time and each data edge has a route; two claims on
//! one place are a fault, and the place gets dearer the longer the fault lasts. A move lifts one node with its routes
//! and places it where it and its routes cost least. The search ends when there are no faults.
#![tactic(auto)]

mod candidates;
mod claims;
mod counting;
mod draws;
mod effort;
mod estimates;
mod estimating;
mod faults;
mod known;
mod mapping;
mod opening;
mod pace;
mod ranks;
mod responding;
mod search;
mod settling;
mod snapshot;
mod sweeps;
mod turning;
mod windows;
mod wires;

pub use cg_search_costs::Wiring;
pub use effort::Effort;
pub use responding::{Responded, respond};

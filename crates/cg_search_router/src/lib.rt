//! Least prices of routes in layers of time, forward from where a value begins and backward from where it is read.
#![tactic(auto)]

mod backward;
mod buffers;
mod fabric;
mod forward;
mod stand;
mod steps;

pub use buffers::{ENTRY_BYTES, Layers, UNREACHED};
pub use cg_search_costs::{Occupancy, Wiring};
pub use fabric::{Extent, Fabric};
pub use stand::Stand;

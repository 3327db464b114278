//! An architecture as a search for routes reads it, and the prices of its resources in each slot.
#![tactic(auto)]

mod array;
mod bases;
mod flow;
mod hops;
mod pricing;
mod rows;
mod spot;

pub use array::Wiring;
pub use bases::REGISTER_PRICE;
pub use cg_arch::Arch;
pub use hops::NO_WAY;
pub use pricing::Occupancy;

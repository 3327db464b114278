//! Pictures of legal mappings: the node that each unit begins and the value that each resource carries, slot by slot,
//! and one iteration in time.
#![tactic(auto)]

mod foot;
mod head;
mod laws;
mod marked;
mod panels;
mod schedule;
mod shared;
mod style;
mod whole;
mod words;

pub use cg_occupancy::Marks;
pub use laws::shows_slots;
pub use whole::picture;

//! Architectures as a designer writes them: their elements, the resources and names that the elements define, and the
//! faults A1 to A5, A7 and A8: of sizes, names, drivers, units and the number of contexts.
#![tactic(auto)]

mod before_loops;
mod claims;
mod drivers;
mod entries;
mod entry;
mod fault;
mod names;
mod parts;
mod texts;
mod units;

pub use before_loops::fault_before_loops;
pub use cg_reading::{Numbers, number_in, numbers_of};
pub use drivers::DriverRule;
pub use entries::entries_of_all;
pub use entry::Entry;
pub use fault::{ArchFault, DriverPlace, HubPlace, NamePlace, TooLargePlace};
pub use names::distinct;
pub use parts::{Element, Names, Parts};
pub use texts::arch_fault_text;
pub use units::unit_or_contexts_fault;

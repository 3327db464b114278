//! Affine addresses of a kernel, and the order edges that its accesses need, whatever the image.
#![tactic(auto)]

mod accesses;
mod adding;
mod addresses;
mod fault;
mod gap;
mod gather;
mod laws;
mod table;

pub use accesses::is_within;
pub use adding::{DependDone, depend};
pub use addresses::Addresses;
pub use fault::{DependFault, depend_fault_text};
pub use laws::always_needed;
pub use table::{AffinePair, AffineTable, affine};

//! The order edges of a kernel whose accesses are to arrays apart from one another: two accesses to one array, of which one
//! stores, are ordered in each turn and from each turn to the next, by as few edges as chains of the others leave out.
#![tactic(auto)]

mod access;
mod back;
mod chains;
mod closing;
mod draft;
mod edges;
mod forth;
mod lookup;
mod marks;
mod ordering;
#[cfg(test)]
mod tests;

pub use access::Access;
pub use ordering::{OrderFault, ordered};

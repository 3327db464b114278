//! The architecture that parts define, or the first rule that they break.
#![tactic(auto)]

mod build;
mod hub;
mod validation;

pub use cg_arch::Arch;
pub use cg_parts::{
    ArchFault, DriverPlace, Element, HubPlace, NamePlace, Names, Parts, TooLargePlace,
};
pub use validation::validate;

//! The text of mappings of kernels on architectures: its reader, its faults and its printer.
#![tactic(auto)]

mod complete;
mod directory;
mod ends;
mod fault;
mod named;
mod names;
mod print;
mod read;
mod reading;
mod rules;
mod shape;
mod tally;
mod texts;
mod written;

pub use cg_arch::Arch;
pub use cg_model::{Items, Kernel, Mapping, Name, Place, Route, Words};
pub use fault::{Gap, MappingFault, MappingPlace};
pub use print::print_mapping;
pub use read::read_mapping;
pub use shape::has_shape;
pub use texts::mapping_fault_text;

//! All that is wrong in a kernel file or a mapping file, in sentences.
#![tactic(auto)]

mod args;
mod edges;
mod ends;
mod kernels;
mod known;
mod mappings;
mod missing;
mod nodes;
mod other;
mod paths;
mod places;
mod shapes;

pub use kernels::kernel_findings;
pub use mappings::{MappingCall, mapping_findings};

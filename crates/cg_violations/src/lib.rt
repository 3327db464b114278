//! All violations of a mapping and their lines, and the positions of all its routes.
#![tactic(auto)]

mod buckets;
mod clashing;
mod finding;
mod lines;
mod mappings;
mod meeting;
mod placing;
mod sharing;
mod stops;

pub use cg_check::{Arch, Kernel, Mapping, Rule, RulePlace, Violation};
pub use finding::violations;
pub use lines::fault_lines;
pub use stops::all_stops;

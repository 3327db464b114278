//! The intervals that a search for a mapping tries, and its answers.
#![tactic(auto)]

mod answering;
mod tried;

pub use answering::{Answer, FoundBy};
pub use cg_arch::Arch;
pub use cg_bound::Certificate;
pub use cg_check::LegalMapping;
pub use cg_model::Kernel;
pub use tried::{first_tried, last_tried};

//! The report on the least interval that no reason excludes.
#![tactic(auto)]

mod instances;
mod lines;
mod reasons;
mod report;

pub use cg_bound_all::Instance;
pub use instances::AtInterval;
pub use lines::push_lines;
pub use reasons::push_reason;
pub use report::{excluded_line, why_report};

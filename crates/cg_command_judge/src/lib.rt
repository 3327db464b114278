//! The commands that judge a mapping or an interval: `bound`, `why`, `check`, `violations`, `emit`, `show`.
#![tactic(auto)]

mod bounding;
mod checking;
mod emitting;
mod explaining;
mod listing;
mod showing;

pub use bounding::bound;
pub use checking::check;
pub use emitting::{emit, emit_report};
pub use explaining::why;
pub use listing::violations;
pub use showing::show;

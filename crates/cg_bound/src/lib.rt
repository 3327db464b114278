//! The least interval at which a kernel may run on an architecture, and why each lower one is impossible.
#![tactic(auto)]

mod counts;
mod halves;
mod interval;
mod laws;
mod overfull;
mod text;
mod unoffered;

pub use cg_recur::{Arch, EdgeId, Kernel};
pub use counts::sums;
pub use interval::{Certificate, IntervalVerdict, LeastInterval, bound, verdict};
pub use laws::{always_bounded, certifies, excludes, one_least};
pub use text::{certificate_text, edge_word, push_chain, push_edges, push_set};

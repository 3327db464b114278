//! Notes on texts in C: what stands at a fault, and what may be meant there.
#![tactic(auto)]

mod context;
mod foreign;
mod heads;
mod hints;
mod strays;
mod texts;
mod trees;

pub use texts::find_in_text;
pub use trees::find_in_tree;

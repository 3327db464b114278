//! What is known of words, and what the operations give for it: which operand a value equals, which word it is, and how
//! great it can be. And what is known so of the operands of a kernel's nodes in every turn of every run.
#![tactic(auto)]

mod constants;
mod facts;
mod identities;
mod node_tops;
mod operands;
mod tops;

pub use constants::constant_of;
pub use facts::{Fact, Facts};
pub use identities::operand_of;
pub use node_tops::{computes, tops_of};
pub use operands::{fact_of, facts_of};
pub use tops::top_of;

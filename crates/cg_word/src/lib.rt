//! The operations of kernels and units: their names, codes and arities, what they compute, and sets of them.
#![tactic(auto)]

mod compute;
mod op;
mod set;

pub use compute::apply;
pub use op::Op;
pub use set::OpSet;

//! The values of a turn of a loop nest, each once: leaves, loads, and operations on earlier values.
//!
//! An operation is simplified by identities of words before it is added: what is asked for is a value that has the
//! operation's word in each turn, and the simplest such value that the identities find is given.
#![tactic(auto)]

mod choices;
mod comparisons;
mod facts;
mod making;
mod masks;
mod plan;
mod plans;
mod products;
mod shifts;
mod sums;
mod value;
mod values;

pub use value::Value;
pub use values::Values;

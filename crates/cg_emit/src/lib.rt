//! The bitstream of a legal mapping: its configuration, the bytes that encode it, and what their run does.
#![tactic(auto)]

mod emission;
mod fields;
mod nodes;
mod selects;

pub use cg_bits::{Config, Contexts};
pub use cg_check::LegalMapping;
pub use emission::{configuration, emit, stages};

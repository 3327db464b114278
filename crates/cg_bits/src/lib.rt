//! Configurations as bits.
#![tactic(auto)]

mod all_slots;
mod check;
mod checking;
mod fault;
mod field;
mod format;
mod header;
mod ports;
mod reading;
mod reading_all;
mod rules;
mod texts;
mod writer;
mod writing;

pub use cg_config::{ArgFields, Config, Contexts, NO_ARG, UnitFields};
pub use check::check_bits;
pub use fault::{Bits1Fault, BitsFault};
pub use field::number_at;
pub use format::{CGB1, CGB2, Format};
pub use header::{HEADER, ii_in, stages_in};
pub use reading::{arg_at, op_of, unit_at};
pub use reading_all::{read_bits, read_bits_1};
pub use texts::{bits_fault_text, first_fault_text};
pub use writing::write_bits;

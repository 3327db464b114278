//! Flat architectures, valid or not: their resources and units by number, their text, and the layout of the fields of a
//! slot.
#![tactic(auto)]

mod flat;
mod slots;
mod text;

pub use cg_model::{Kind, Name, Resource, Unit, Words};
pub use flat::Flat;
pub use slots::{select_bits, select_starts, unit_starts};
pub use text::flat_text;

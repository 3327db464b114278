//! Valid flat architectures, with derived data: their digest, an order of evaluation, and the layout of a slot.
#![tactic(auto)]

mod arch;
mod kept;

pub use arch::{Arch, flat_text};
pub use cg_model::{Kind, Name, Resource, Unit, Words};
pub use cg_word::{Op, OpSet};
pub use kept::keep;
